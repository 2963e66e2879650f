use fk_log::Verbosity;
use fk_run::Limits;
use fk_turn::Policy;

/// What a run serves by, how far it goes, and which lines it prints.
#[derive(Clone, Copy)]
pub struct Task<'a> {
    pub policy: Policy<'a>,
    pub limits: Limits,
    pub verbosity: Verbosity,
}
