//! The lines that set something up.
use crate::areas::left_by;
use crate::fault::Fault;
use crate::fields::Fields;
use crate::line::Line;
use crate::memory::{Area, StartScript};
use crate::names::Names;
use crate::setup::SetTurn;
use crate::stage::Stage;
use fk_base::{Bytes, Ip4};

/// Sets up a file or the input, whose lines stand below. Answers whether the line does that.
pub fn set_block(
    stage: &mut Stage,
    word: &str,
    fields: &mut Fields<'_>,
    below: &[Line<'_>],
) -> Result<bool, Fault> {
    match word {
        "file" => {
            let name = fields.word()?;
            let text = block(stage, below)?;
            add_file(stage, name, &text)?;
        }
        "input" => stage.setup.input = block(stage, below)?,
        _ => return Ok(false),
    }
    fields.end()?;
    Ok(true)
}

/// The text of the lines, each behind a bar. A line behind `|-` has no line feed.
fn block(stage: &Stage, below: &[Line<'_>]) -> Result<Bytes, Fault> {
    let mut text = Bytes::new(stage.alloc);
    for line in below {
        put_line(&stage.names, line.text, &mut text)?;
    }
    Ok(text)
}

fn put_line(names: &Names, line: &str, text: &mut Bytes) -> Result<(), Fault> {
    if line == "|" {
        return Ok(text.append(b"\n")?);
    }
    if let Some(written) = line.strip_prefix("|- ") {
        return names.put_bytes(written, text);
    }
    let written = line.strip_prefix("| ").ok_or(Fault::NotUnderstood)?;
    names.put_bytes(written, text)?;
    Ok(text.append(b"\n")?)
}

fn add_file(stage: &mut Stage, name: &str, text: &Bytes) -> Result<(), Fault> {
    let name = name.as_bytes();
    if stage.files.find(name).is_some() {
        return Err(Fault::Twice);
    }
    Ok(stage.files.add(name, text.as_slice())?)
}

/// Sets up what one line says. Answers whether the line does that.
pub fn set_up(stage: &mut Stage, word: &str, fields: &mut Fields<'_>) -> Result<bool, Fault> {
    match word {
        "datagram" => name_text(stage, fields)?,
        "sent" => name_sent(stage, fields)?,
        "turn" => add_turn(stage, fields)?,
        "script" => add_start(stage, fields)?,
        "fail" => set_failing(stage, fields)?,
        "output" => stage.setup.room = Some(fields.size()?),
        "pieces" => stage.setup.piece = fields.size()?,
        "entropy" => set_entropy(stage, fields)?,
        "moment" => stage.moment = fields.moment()?,
        "area" => set_area(stage, fields)?,
        "crash" => crash(stage, fields)?,
        "again" => begin_again(stage),
        _ => return Ok(false),
    }
    fields.end()?;
    Ok(true)
}

fn set_entropy(stage: &mut Stage, fields: &mut Fields<'_>) -> Result<(), Fault> {
    stage.entropy = stage.names.hex(fields.word()?)?;
    Ok(())
}

/// What is set up so far is for the first of two runs.
fn begin_again(stage: &mut Stage) {
    stage.first = Some(stage.take_setup());
}

fn name_text(stage: &mut Stage, fields: &mut Fields<'_>) -> Result<(), Fault> {
    let name = fields.word()?;
    let text = stage.names.bytes(fields.all()?)?;
    stage.names.add(name, text)
}

/// The datagram that the client has sent last gets a name.
fn name_sent(stage: &mut Stage, fields: &mut Fields<'_>) -> Result<(), Fault> {
    let name = fields.word()?;
    let text = Bytes::copy(stage.alloc, stage.link.sent())?;
    stage.names.add(name, text)
}

fn add_turn(stage: &mut Stage, fields: &mut Fields<'_>) -> Result<(), Fault> {
    let moment = fields.moment()?;
    let turn = match fields.all_or_none() {
        None => SetTurn {
            moment,
            source: Ip4(0),
            datagram: None,
        },
        Some(rest) => datagram_turn(stage, moment, &mut Fields::new(rest))?,
    };
    stage.setup.turns.push(turn)?;
    Ok(())
}

fn datagram_turn(
    stage: &Stage,
    moment: fk_base::Moment,
    fields: &mut Fields<'_>,
) -> Result<SetTurn, Fault> {
    let source = fields.address()?;
    let datagram = stage.names.bytes(fields.all()?)?;
    Ok(SetTurn {
        moment,
        source,
        datagram: Some(datagram),
    })
}

fn add_start(stage: &mut Stage, fields: &mut Fields<'_>) -> Result<(), Fault> {
    let start = match fields.word()? {
        "fails" => StartScript::Fails,
        "never" => StartScript::Never,
        "ends" => {
            let after = fields.number()?;
            let good = is_first(fields.word()?, "good", "bad")?;
            StartScript::Ends { after, good }
        }
        _ => return Err(Fault::NotUnderstood),
    };
    stage.setup.starts.push(start)?;
    Ok(())
}

/// Which of two words it is.
fn is_first(word: &str, first: &str, second: &str) -> Result<bool, Fault> {
    if word == first {
        Ok(true)
    } else if word == second {
        Ok(false)
    } else {
        Err(Fault::NotUnderstood)
    }
}

fn set_failing(stage: &mut Stage, fields: &mut Fields<'_>) -> Result<(), Fault> {
    match fields.word()? {
        "disk" => stage.setup.failing_disk.push(fields.number()?)?,
        "poll" => stage.setup.failing_polls.push(fields.number()?)?,
        "turn" => stage.setup.failing_turn = Some(fields.number()?),
        "read" => stage.setup.failing_read = Some(fields.number()?),
        "open" => stage.setup.is_closed = true,
        "link" => stage.setup.is_down = true,
        "file" => stage.files.fail(fields.word()?.as_bytes())?,
        _ => return Err(Fault::NotUnderstood),
    }
    Ok(())
}

pub fn area_of(word: &str) -> Result<Area, Fault> {
    match word {
        "Head" => Ok(Area::Head),
        "One" => Ok(Area::One),
        "Two" => Ok(Area::Two),
        _ => Err(Fault::NotUnderstood),
    }
}

fn set_area(stage: &mut Stage, fields: &mut Fields<'_>) -> Result<(), Fault> {
    let area = area_of(fields.word()?)?;
    let bytes = stage.names.hex(fields.all()?)?;
    stage.areas.set(area, bytes);
    Ok(())
}

/// The areas become what a crash after so many calls of the last run may leave.
fn crash(stage: &mut Stage, fields: &mut Fields<'_>) -> Result<(), Fault> {
    let moment = fields.number()?;
    let keep = is_first(fields.word()?, "keep", "lose")?;
    let host = stage.host.as_ref().ok_or(Fault::OutOfPlace)?;
    stage.areas = left_by(host, moment, keep)?.ok_or(Fault::OutOfPlace)?;
    Ok(())
}
