use crate::fault::Fault;
use fk_base::{Bytes, NoMemory, Words, read_decimal};
use std::alloc::Global;

/// How often a letter may be repeated at most.
const MOST_LETTERS: u64 = 1_000_000;

#[derive(Drop)]
struct Named {
    name: Bytes,
    text: Bytes,
}

/// The texts that have a name.
#[derive(Drop)]
pub struct Names {
    alloc: Global,
    held: Vec<Named>,
}

impl Names {
    pub fn new(alloc: Global) -> Self {
        Names {
            alloc,
            held: Vec::new(alloc),
        }
    }

    /// Gives a text a name, which no other may have.
    pub fn add(&mut self, name: &str, text: Bytes) -> Result<(), Fault> {
        if self.find(name).is_some() {
            return Err(Fault::Twice);
        }
        let name = Bytes::copy(self.alloc, name.as_bytes())?;
        self.held.push(Named { name, text })?;
        Ok(())
    }

    fn find(&self, name: &str) -> Option<&Named> {
        self.held
            .iter()
            .find(|it| it.name.as_slice() == name.as_bytes())
    }

    /// The bytes that are written so. What stands in braces stands for other bytes: `{NAME}` for a text of that name, `{A*139}` for a
    /// letter so many times, `{0x7f}` for bytes in hexadecimal, and `{}` for none.
    pub fn bytes(&self, written: &str) -> Result<Bytes, Fault> {
        let mut out = Bytes::new(self.alloc);
        self.put_bytes(written, &mut out)?;
        Ok(out)
    }

    /// Puts these bytes behind others.
    pub fn put_bytes(&self, written: &str, out: &mut Bytes) -> Result<(), Fault> {
        for (at, part) in written.split('{').enumerate() {
            if at == 0 {
                out.append(part.as_bytes())?;
            } else {
                let (inner, plain) = part.split_once('}').ok_or(Fault::NotUnderstood)?;
                self.put(inner, out)?;
                out.append(plain.as_bytes())?;
            }
        }
        Ok(())
    }

    fn put(&self, inner: &str, out: &mut Bytes) -> Result<(), Fault> {
        if let Some(digits) = inner.strip_prefix("0x") {
            return Ok(out.append(&hex_bytes(self.alloc, digits.as_bytes())?)?);
        }
        if let Some((letter, count)) = inner.split_once('*') {
            return put_often(letter, count, out);
        }
        if inner.is_empty() {
            return Ok(());
        }
        let named = self.find(inner).ok_or(Fault::Unknown)?;
        Ok(out.append(named.text.as_slice())?)
    }

    /// The bytes that are written in hexadecimal.
    pub fn hex(&self, written: &str) -> Result<Bytes, Fault> {
        let digits = self.bytes(written)?;
        Ok(Bytes::from(hex_bytes(self.alloc, digits.as_slice())?))
    }

    /// The words that are written so, each between single spaces.
    pub fn words(&self, written: Option<&str>) -> Result<Words, Fault> {
        let mut words = Words::new(self.alloc);
        let Some(written) = written else {
            return Ok(words);
        };
        for word in written.split(' ') {
            words.push(self.bytes(word)?.as_slice())?;
        }
        Ok(words)
    }
}

fn put_often(letter: &str, count: &str, out: &mut Bytes) -> Result<(), Fault> {
    match read_decimal(count.as_bytes()) {
        Ok(count) if count <= MOST_LETTERS => {
            for _ in 0..count {
                out.append(letter.as_bytes())?;
            }
            Ok(())
        }
        _ => Err(Fault::NotUnderstood),
    }
}

/// The bytes that are written in hexadecimal.
fn hex_bytes(alloc: Global, digits: &[u8]) -> Result<Vec<u8>, Fault> {
    match hex::decode(alloc, digits) {
        Ok(bytes) => Ok(bytes),
        Err(hex::FromHexError::OutOfMemory) => Err(Fault::NoMemory),
        Err(_) => Err(Fault::NotUnderstood),
    }
}

/// The text of bytes in hexadecimal.
pub fn hex_text(alloc: Global, bytes: &[u8]) -> Result<String, NoMemory> {
    Ok(hex::encode(alloc, bytes)?)
}
