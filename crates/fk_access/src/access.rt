ghost use Rattle.std.specs.Prelude.{◌≡◌, ◌<◌, ◌≤◌, [], ◌∷◌, ◌++◌, length, slice_get, OnErr, OnOk, Some};

use crate::Stanza;
use fk_base::NoMemory;
use std::alloc::Global;
use std::marker::Model;

/// The most stanzas of an access file.
pub const STANZAS_LIMIT: usize = 256;

/// The stanzas of an access file, in the order of the file.
#[derive(Drop)]
pub struct Access {
    stanzas: Vec<Stanza>,
}

impl Model for Access {
    ghost use Rattle.std.specs.Prelude.{List, ◌≤◌, length};
    ghost use Rattle.fk_access.specs.declared.stanza.Stanza.{Stanza};

    ghost Value = { List Stanza };

    ghost view = { λ a. a.stanzas.items };

    ghost invariant = { λ a. length a.stanzas.items ≤ 256 };
}

impl Access {
    pub(crate) fn new(alloc: Global) -> Self
        ensures { result ≡ [] }
    {
        Access {
            stanzas: Vec::new(alloc),
        }
    }

    /// How many stanzas there are.
    pub fn count(&self) -> usize
        ensures count { result ≡ length self.now }
        ensures bound { result ≤ STANZAS_LIMIT }
    {
        self.stanzas.len()
    }

    pub fn get(&self, at: usize) -> &Stanza
        requires { at < length self.now }
        ensures { slice_get self.now at ≡ Some result.now }
    {
        &self.stanzas[at]
    }

    /// The stanzas in the order of the file.
    pub fn as_slice(&self) -> &[Stanza]
        ensures { result.now ≡ self.now }
    {
        &self.stanzas
    }

    /// Adds a stanza at the end.
    pub(crate) fn push(&mut self, stanza: Stanza) -> Result<(), NoMemory>
        requires { length self.old < STANZAS_LIMIT }
        ensures ok { OnOk result (self.new ≡ self.old ++ stanza ∷ []) }
        ensures err { OnErr result (self.new ≡ self.old) }
    {
        self.stanzas.push(stanza)?;
        Ok(())
    }
}
