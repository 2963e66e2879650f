/// Why a record is not made, in the order in which it is tested.
#[derive(Clone, Copy, Debug, PartialEq, Eq)]
pub enum RecordFault {
    /// There is no room for it.
    Full,
    /// A call of the disk failed.
    Disk,
}
