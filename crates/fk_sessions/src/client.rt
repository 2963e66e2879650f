//! Runs of `fwknop`.
use crate::answer::Answer;
use crate::closed::ClosedLink;
use crate::fault::Fault;
use crate::fields::Fields;
use crate::memory::{Link, MemEntropy, MemLink};
use crate::setup::Setup;
use crate::stage::Stage;
use fk_base::Words;
use fk_client::fwknop_run;

/// Runs `fwknop` over what the session has.
pub fn run_client(stage: &mut Stage, fields: &mut Fields<'_>) -> Result<Answer, Fault> {
    let words = stage.names.words(fields.all_or_none())?;
    let setup = stage.take_setup();
    let mut link = MemLink::new();
    let answer = if setup.is_down {
        run_on(stage, &words, &setup, &mut ClosedLink::new())?
    } else {
        run_on(stage, &words, &setup, &mut link)?
    };
    stage.link = link;
    Ok(answer)
}

fn run_on<L: Link>(
    stage: &mut Stage,
    words: &Words,
    setup: &Setup,
    link: &mut L,
) -> Result<Answer, Fault> {
    let alloc = stage.alloc;
    let moment = stage.moment;
    let files = &mut stage.files;
    let mut entropy = MemEntropy::new(alloc, stage.entropy.as_slice())?;
    let mut out = setup.sink();
    let status = fwknop_run(alloc, words, files, &mut entropy, moment, link, &mut out);
    Ok(Answer::of_run(alloc, out.written(), status)?)
}
