/// What a started command is for: the number is that of the record whose open or close it is.
#[derive(Clone, Copy, Debug, PartialEq, Eq)]
pub enum Purpose {
    Open(u64),
    Close(u64),
}
