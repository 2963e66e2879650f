//! What follows from the definitions alone. Each function is a law, and does nothing.
ghost use Rattle.std.specs.Prelude.{◌≡◌, ℕ, List, map};
ghost use Rattle.fk_run.specs.Run.{Run, turns_of, trace_of};
ghost use Rattle.fk_log.specs.declared.verbosity.Verbosity.{Verbosity};
ghost use Rattle.fk_turn.specs.declared.policy.Policy.{Policy};
ghost use Rattle.fk_trial.specs.Trial.{IsTrial, IsTrialOf, trial_text};

/// There is one trial for the turns that were taken: two of them have the same events, whatever the counts in their items, and where
/// they ended alike, the same log.
pub fn trials_are_determined()
    ensures events { (policy : Policy) (a b : Run) → IsTrial policy a → IsTrial policy b → turns_of a ≡ turns_of b
        → map (λ item. item.event) (trace_of a) ≡ map (λ item. item.event) (trace_of b) }
    ensures log { (policy : Policy) (verbosity : Verbosity) (a b : Run) → IsTrial policy a → IsTrial policy b → turns_of a ≡ turns_of b → a.ending ≡ b.ending
        → trial_text verbosity a ≡ trial_text verbosity b }
{}

/// Two trials of one input have one log, where the input alone decided how they ended.
pub fn trials_of_one_input_have_one_log()
    ensures { (policy : Policy) (verbosity : Verbosity) (text : List ℕ) (a b : Run) → IsTrialOf policy text a → IsTrialOf policy text b
        → trial_text verbosity a ≡ trial_text verbosity b }
{}
