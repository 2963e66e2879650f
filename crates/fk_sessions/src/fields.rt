use crate::fault::Fault;
use fk_base::{Ip4, Moment, read_decimal, read_ip, read_moment};

/// The words of a line that are left, between single spaces.
#[derive(Drop)]
pub struct Fields<'a> {
    rest: Option<&'a str>,
}

impl<'a> Fields<'a> {
    pub fn new(text: &'a str) -> Self {
        Fields { rest: Some(text) }
    }

    /// The next word.
    pub fn word(&mut self) -> Result<&'a str, Fault> {
        let text = self.all()?;
        match text.split_once(' ') {
            Some((word, rest)) => {
                self.rest = Some(rest);
                Ok(word)
            }
            None => Ok(text),
        }
    }

    /// All that is left.
    pub fn all(&mut self) -> Result<&'a str, Fault> {
        let rest = self.rest.take();
        rest.ok_or(Fault::NotUnderstood)
    }

    /// All that is left, or nothing.
    pub fn all_or_none(&mut self) -> Option<&'a str> {
        self.rest.take()
    }

    pub fn number(&mut self) -> Result<u64, Fault> {
        read_decimal(self.word()?.as_bytes()).map_err(|_| Fault::NotUnderstood)
    }

    /// A number of bytes.
    pub fn size(&mut self) -> Result<usize, Fault> {
        Ok(self.number()? as usize)
    }

    pub fn count(&mut self) -> Result<u32, Fault> {
        u32::try_from(self.number()?).map_err(|_| Fault::NotUnderstood)
    }

    pub fn port(&mut self) -> Result<u16, Fault> {
        u16::try_from(self.number()?).map_err(|_| Fault::NotUnderstood)
    }

    pub fn moment(&mut self) -> Result<Moment, Fault> {
        read_moment(self.word()?.as_bytes()).map_err(|_| Fault::NotUnderstood)
    }

    pub fn address(&mut self) -> Result<Ip4, Fault> {
        read_ip(self.word()?.as_bytes()).map_err(|_| Fault::NotUnderstood)
    }

    /// No word is left.
    pub fn end(&self) -> Result<(), Fault> {
        match self.rest {
            None => Ok(()),
            Some(_) => Err(Fault::NotUnderstood),
        }
    }
}
