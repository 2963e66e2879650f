use fk_access::Access;
use fk_conf::Conf;

/// What a turn is served by: the configuration and the stanzas.
#[derive(Clone, Copy)]
pub struct Policy<'a> {
    pub conf: &'a Conf,
    pub access: &'a Access,
}
