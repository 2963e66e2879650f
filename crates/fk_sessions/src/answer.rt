use fk_base::{Bytes, NoMemory, Status};
use std::alloc::Global;

/// What a line has brought: the bytes that came, and how a run ended.
#[derive(Drop)]
pub struct Answer {
    alloc: Global,
    text: Bytes,
    status: Option<Status>,
}

impl Answer {
    pub fn new(alloc: Global) -> Self {
        Answer {
            alloc,
            text: Bytes::new(alloc),
            status: None,
        }
    }

    /// What a run has printed, and how it ended.
    pub fn of_run(alloc: Global, printed: &[u8], status: Status) -> Result<Self, NoMemory> {
        Ok(Answer {
            alloc,
            text: Bytes::copy(alloc, printed)?,
            status: Some(status),
        })
    }

    pub fn text(&self) -> &[u8] {
        self.text.as_slice()
    }

    pub fn alloc(&self) -> Global {
        self.alloc
    }

    /// How the run ended, if it was one.
    pub fn status(&self) -> Option<Status> {
        self.status
    }

    /// One line.
    pub fn of_text(alloc: Global, line: String) -> Result<Self, NoMemory> {
        let mut answer = Answer::new(alloc);
        answer.say_text(line)?;
        Ok(answer)
    }

    /// Adds a line.
    pub fn say(&mut self, line: &[u8]) -> Result<(), NoMemory> {
        self.text.append(line)?;
        self.text.append(b"\n")
    }

    pub fn say_text(&mut self, line: String) -> Result<(), NoMemory> {
        self.say(line.as_bytes())
    }
}

/// The name of a status, as a session writes it.
pub fn name_of(status: Status) -> &'static str {
    match status {
        Status::Done => "Done",
        Status::Usage => "Usage",
        Status::Config => "Config",
        Status::FileFault => "FileFault",
        Status::FeedFault => "FeedFault",
        Status::DiskFault => "DiskFault",
        Status::Damaged => "Damaged",
        Status::SinkFault => "SinkFault",
        Status::NoMemory => "NoMemory",
        Status::ReadFault => "ReadFault",
        Status::LinkFault => "LinkFault",
        Status::EntropyFault => "EntropyFault",
    }
}
