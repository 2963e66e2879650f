use crate::{KeyRing, PairList, Sources};
use fk_base::Bytes;
use fk_subst::Template;

/// One rule of an access file: who may open what, and the commands that do it.
#[derive(Drop)]
pub struct Stanza {
    /// The number of its SOURCE line, counted from 1.
    pub line: u32,
    pub sources: Sources,
    /// The pairs that may be asked for; without a list every pair.
    pub allowed: Option<PairList>,
    /// The pairs that may not be asked for, whatever `allowed` says.
    pub barred: Option<PairList>,
    pub ring: KeyRing,
    /// The one user, where one is required.
    pub user: Option<Bytes>,
    /// Whether a packet has to name the address that it asks for.
    pub need_source: bool,
    /// The last moment at which it lets anybody in, in seconds since the start of 1970.
    pub expire: Option<u64>,
    pub opening: Template,
    pub closing: Template,
    /// How long it lets in where the packet does not say, in seconds: 1 to 604800.
    pub timer: u32,
}
