use fk_lines::LineFault;

/// Why a line of settings is refused, in the order in which it is tested.
#[derive(Clone, Copy, Debug, PartialEq, Eq)]
pub enum SettingFault {
    /// It has no name and value.
    Line(LineFault),
    /// The file knows no such name.
    UnknownName,
    /// A line before it set the same.
    Twice,
    /// The value is none of that name.
    BadValue,
}
