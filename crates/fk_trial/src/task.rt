use fk_log::Verbosity;
use fk_turn::Policy;

/// What a trial serves by, and which lines it prints.
#[derive(Clone, Copy)]
pub struct TrialTask<'a> {
    pub policy: Policy<'a>,
    pub verbosity: Verbosity,
}
