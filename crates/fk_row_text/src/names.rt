use crate::RowFault;
use fk_base::Bytes;
use std::alloc::Global;

/// The texts that the rows of a file have named.
#[derive(Drop)]
pub(crate) struct Names {
    items: Vec<Named>,
}

#[derive(Drop)]
struct Named {
    name: Bytes,
    text: Bytes,
}

impl Names {
    pub(crate) fn new(alloc: Global) -> Self {
        Names {
            items: Vec::new(alloc),
        }
    }

    pub(crate) fn find(&self, name: &[u8]) -> Option<&[u8]> {
        for item in &self.items {
            if item.name.as_slice() == name {
                return Some(item.text.as_slice());
            }
        }
        None
    }

    /// Names a text, by a name that none has.
    pub(crate) fn add(&mut self, name: Bytes, text: Bytes) -> Result<(), RowFault> {
        if self.find(name.as_slice()).is_some() {
            return Err(RowFault::NameTwice);
        }
        match self.items.push(Named { name, text }) {
            Ok(()) => Ok(()),
            Err(_) => Err(RowFault::NoMemory),
        }
    }
}
