ghost use Rattle.std.specs.Prelude.{◌≡◌};
ghost use Rattle.fk_base.specs.Status.{exit_code};

/// How a run of a program ended.
#[derive(Clone, Copy, Debug, PartialEq, Eq)]
pub enum Status {
    Done,
    Usage,
    Config,
    FileFault,
    FeedFault,
    DiskFault,
    Damaged,
    SinkFault,
    NoMemory,
    ReadFault,
    LinkFault,
    EntropyFault,
}

impl Status {
    /// The number that the process ends with.
    pub fn exit_code(self) -> u8
        ensures { result ≡ exit_code self }
    {
        match self {
            Status::Done => 0,
            Status::Usage => 2,
            Status::Config => 3,
            Status::FileFault => 4,
            Status::FeedFault => 5,
            Status::DiskFault => 6,
            Status::Damaged => 7,
            Status::SinkFault => 8,
            Status::NoMemory => 9,
            Status::ReadFault => 10,
            Status::LinkFault => 11,
            Status::EntropyFault => 12,
        }
    }
}
