use crate::line::Line;
use fk_base::NoMemory;
use std::alloc::Global;

/// What there is to tell of the sessions of a file.
#[derive(Drop)]
pub struct Report {
    alloc: Global,
    text: String,
    failures: u64,
}

impl Report {
    pub fn new(alloc: Global) -> Self {
        Report {
            alloc,
            text: String::new(alloc),
            failures: 0,
        }
    }

    /// Tells a failure at a line, and what came.
    pub fn fail(&mut self, line: &Line<'_>, what: &str, came: &[u8]) -> Result<(), NoMemory> {
        self.failures = self.failures.saturating_add(1);
        let file = line.file;
        let number = line.number;
        let start = format!(in self.alloc; "{file}:{number}: {what}")?;
        self.text.push_str(start.as_str())?;
        self.put(came)?;
        self.text.push('\n')?;
        Ok(())
    }

    /// Puts the bytes as a session writes them.
    fn put(&mut self, bytes: &[u8]) -> Result<(), NoMemory> {
        for byte in bytes {
            if byte.is_ascii_graphic() || *byte == b' ' {
                self.text.push(char::from(*byte))?;
            } else {
                let code = format!(in self.alloc; "{{0x{byte:02x}}}")?;
                self.text.push_str(code.as_str())?;
            }
        }
        Ok(())
    }

    /// Tells how many sessions the file has, and how many failures were told.
    pub fn end(&mut self, file: &str, sessions: u64) -> Result<(), NoMemory> {
        let failures = self.failures;
        let line = if failures == 0 {
            format!(in self.alloc; "{file}: {sessions} sessions\n")?
        } else {
            format!(in self.alloc; "{file}: {sessions} sessions, {failures} failures\n")?
        };
        self.text.push_str(line.as_str())?;
        Ok(())
    }

    pub fn text(&self) -> &str {
        self.text.as_str()
    }

    pub fn is_right(&self) -> bool {
        self.failures == 0
    }
}
