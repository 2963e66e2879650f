ghost use Rattle.std.specs.Prelude.{◌≡◌, ◌<◌, ◌≤◌, [], ◌∷◌, ◌++◌, length, slice_get, OnErr, OnOk, Some};

use crate::RcStanza;
use fk_base::NoMemory;
use std::alloc::Global;
use std::marker::Model;

/// The most stanzas of a client's file.
pub const RC_STANZAS_LIMIT: usize = 256;

/// The stanzas of a client's file, in the order of the file.
#[derive(Drop)]
pub struct RcFile {
    stanzas: Vec<RcStanza>,
}

impl Model for RcFile {
    ghost use Rattle.std.specs.Prelude.{List, ◌≤◌, length};
    ghost use Rattle.fk_conf.specs.declared.rc_stanza.RcStanza.{RcStanza};

    ghost Value = { List RcStanza };

    ghost view = { λ f. f.stanzas.items };

    ghost invariant = { λ f. length f.stanzas.items ≤ 256 };
}

impl RcFile {
    pub(crate) fn new(alloc: Global) -> Self
        ensures { result ≡ [] }
    {
        RcFile {
            stanzas: Vec::new(alloc),
        }
    }

    /// How many stanzas there are.
    pub fn count(&self) -> usize
        ensures count { result ≡ length self.now }
        ensures bound { result ≤ RC_STANZAS_LIMIT }
    {
        self.stanzas.len()
    }

    pub fn get(&self, at: usize) -> &RcStanza
        requires { at < length self.now }
        ensures { slice_get self.now at ≡ Some result.now }
    {
        &self.stanzas[at]
    }

    /// The stanzas in the order of the file.
    pub fn as_slice(&self) -> &[RcStanza]
        ensures { result.now ≡ self.now }
    {
        &self.stanzas
    }

    /// Adds a stanza at the end.
    pub(crate) fn push(&mut self, stanza: RcStanza) -> Result<(), NoMemory>
        requires { length self.old < RC_STANZAS_LIMIT }
        ensures ok { OnOk result (self.new ≡ self.old ++ stanza ∷ []) }
        ensures err { OnErr result (self.new ≡ self.old) }
    {
        self.stanzas.push(stanza)?;
        Ok(())
    }
}
