ghost use Rattle.std.specs.Prelude.{◌≡◌, List, [], ◌∷◌, ◌++◌};
ghost use Rattle.fk_trace.specs.Decision.{Rules};
ghost use Rattle.fk_run.specs.Place.{Place};
ghost use Rattle.fk_run.specs.Turn.{TakenTurn, after_turns};
ghost use Rattle.fk_log.specs.Line.{Line};
ghost use Rattle.fk_log.specs.Log.{RefusalLine, lines_of_turns, turn_lines};
ghost use Rattle.fk_log.specs.Log.RefusalLine.{Told};
ghost use Rattle.fk_log.specs.Writing.{Output, Logs};

/// Where no line is added, nothing is written, and nothing counted.
pub fn no_lines_log_nothing()
    ensures { (at : Output) → Logs [] at at }
{}

/// Lines that are added one after the other are logged as those of one list.
pub fn adjoining_lines_log_both()
    ensures { (first later : List Line) (a b c : Output) → Logs first a b → Logs later b c → Logs (first ++ later) a c }
{}

/// The lines of turns are those of all but the last, which tell their refusals, and then those of the last.
pub fn turns_are_logged_in_order()
    ensures { (rules : Rules) (place : Place) (refusal : RefusalLine) (front : List TakenTurn) (last : TakenTurn)
        → lines_of_turns rules place refusal (front ++ last ∷ [])
        ≡ lines_of_turns rules place Told front ++ turn_lines rules (after_turns place front) refusal last }
{}
