//! What the last run has left.
use crate::answer::Answer;
use crate::fault::Fault;
use crate::fields::Fields;
use crate::names::hex_text;
use crate::setting::area_of;
use crate::stage::Stage;

/// Shows an area in hexadecimal, how many calls the host has counted, what the link has sent last, or the port of the feed.
pub fn show(stage: &Stage, fields: &mut Fields<'_>) -> Result<Answer, Fault> {
    match fields.word()? {
        "calls" => show_calls(stage),
        "link" => show_link(stage),
        "port" => show_port(stage),
        area => show_area(stage, area),
    }
}

fn show_area(stage: &Stage, name: &str) -> Result<Answer, Fault> {
    let bytes = stage.areas.text(area_of(name)?);
    let text = hex_text(stage.alloc, bytes.as_slice())?;
    Ok(Answer::of_text(stage.alloc, text)?)
}

fn show_calls(stage: &Stage) -> Result<Answer, Fault> {
    let host = stage.host.as_ref().ok_or(Fault::OutOfPlace)?;
    let calls = host.moments();
    let text = format!(in stage.alloc; "{calls}")?;
    Ok(Answer::of_text(stage.alloc, text)?)
}

fn show_port(stage: &Stage) -> Result<Answer, Fault> {
    let port = stage.port.ok_or(Fault::OutOfPlace)?;
    let text = format!(in stage.alloc; "{port}")?;
    Ok(Answer::of_text(stage.alloc, text)?)
}

/// What the link has sent last, if it has sent something.
fn show_link(stage: &Stage) -> Result<Answer, Fault> {
    let alloc = stage.alloc;
    let count = stage.link.count();
    let port = stage.link.port();
    let mut answer = Answer::new(alloc);
    answer.say_text(format!(in alloc; "count {count}")?)?;
    if count > 0 {
        answer.say_text(format!(in alloc; "port {port}")?)?;
        answer.say(stage.link.server())?;
        answer.say(stage.link.sent())?;
    }
    Ok(answer)
}
