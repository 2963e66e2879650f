//! The lines that run something.
use crate::answer::Answer;
use crate::client::run_client;
use crate::daemon::run_daemon;
use crate::fault::Fault;
use crate::fields::Fields;
use crate::journal::{append_entry, list_entries};
use crate::ledger::{list_changes, open_ledger, record_item};
use crate::objects::{
    draw, read_files, read_lines, read_pieces, send, take_turns, write_whole_words, write_words,
};
use crate::places::try_places;
use crate::quiet::serve_quietly;
use crate::show::show;
use crate::stage::Stage;
use crate::stops::stop_everywhere;

/// What the line brings whose first word was taken.
pub fn answer_to(stage: &mut Stage, word: &str, fields: &mut Fields<'_>) -> Result<Answer, Fault> {
    let answer = match word {
        "fwknopd" => run_daemon(stage, fields)?,
        "fwknop" => run_client(stage, fields)?,
        "quietly" => serve_quietly(stage, fields)?,
        "stop" => stop_everywhere(stage, fields)?,
        "show" => show(stage, fields)?,
        "ledger" => open_ledger(stage, fields)?,
        "record" => record_item(stage, fields)?,
        "view" => list_changes(stage)?,
        "journal" => list_entries(stage, fields)?,
        "append" => append_entry(stage, fields)?,
        "each" => try_places(stage, fields)?,
        _ => object_answer(stage, word, fields)?,
    };
    fields.end()?;
    Ok(answer)
}

/// The same for the lines that call an object in memory by itself.
fn object_answer(stage: &mut Stage, word: &str, fields: &mut Fields<'_>) -> Result<Answer, Fault> {
    match word {
        "lines" => read_lines(stage),
        "reads" => read_pieces(stage, fields),
        "writes" => write_words(stage, fields),
        "write-all" => write_whole_words(stage, fields),
        "files" => read_files(stage, fields),
        "turns" => take_turns(stage, fields),
        "sends" => send(stage, fields),
        "draws" => draw(stage, fields),
        _ => Err(Fault::NotUnderstood),
    }
}
