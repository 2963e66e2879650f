//! Calls of the objects in memory by themselves, and of the reader of lines.
use crate::answer::Answer;
use crate::fault::Fault;
use crate::fields::Fields;
use crate::memory::{
    DATAGRAM_ROOM, Entropy, Feed, FileErr, Files, Input, Link, MemEntropy, MemSource, Sink, Source,
    Turn, write_all,
};
use crate::names::hex_text;
use crate::stage::Stage;
use fk_base::{Bytes, Failed, put_ip};
use fk_input::{LineReader, NextLine};

/// Reads so many times from the input, each time into a buffer of four dots, and tells how many bytes came and the whole buffer.
pub fn read_pieces(stage: &mut Stage, fields: &mut Fields<'_>) -> Result<Answer, Fault> {
    let mut source = stage.take_setup().source()?;
    let mut answer = Answer::new(stage.alloc);
    for _ in 0..fields.number()? {
        let mut buf = *b"....";
        let mut line = match source.read(&mut buf) {
            Ok(count) => Bytes::copy(stage.alloc, format!(in stage.alloc; "{count} ")?.as_bytes())?,
            Err(Failed) => Bytes::copy(stage.alloc, b"failed ")?,
        };
        line.append(&buf)?;
        answer.say(line.as_slice())?;
    }
    Ok(answer)
}

/// Reads the lines of the input to the last, and tells how they ended.
pub fn read_lines(stage: &mut Stage) -> Result<Answer, Fault> {
    let mut source = stage.take_setup().source()?;
    let mut reader = LineReader::new();
    let mut answer = Answer::new(stage.alloc);
    for _ in 0..u64::MAX {
        let end = match next_line(&mut reader, &mut source) {
            NextLine::Line => {
                answer.say(reader.line())?;
                continue;
            }
            NextLine::End => "end",
            NextLine::LongLine => "a long line",
            NextLine::LongInput => "a long input",
            NextLine::Failed => "failed",
        };
        answer.say(end.as_bytes())?;
        break;
    }
    Ok(answer)
}

fn next_line(reader: &mut LineReader, source: &mut MemSource) -> NextLine {
    reader.next(source)
}

/// Writes each word to the output, tells how many bytes of it were taken, and at the end what was written.
pub fn write_words(stage: &mut Stage, fields: &mut Fields<'_>) -> Result<Answer, Fault> {
    let mut out = stage.take_setup().sink();
    let words = stage.names.words(fields.all_or_none())?;
    let mut answer = Answer::new(stage.alloc);
    for at in 0..words.count() {
        let word = words.get(at);
        if word.is_empty() {
            return Err(Fault::OutOfPlace);
        }
        match out.write(word) {
            Ok(count) => answer.say(format!(in stage.alloc; "{count}")?.as_bytes())?,
            Err(Failed) => answer.say(b"failed")?,
        }
    }
    answer.say(out.written())?;
    Ok(answer)
}

/// Writes each word to the output whole, and tells whether that succeeded, and at the end what was written.
pub fn write_whole_words(stage: &mut Stage, fields: &mut Fields<'_>) -> Result<Answer, Fault> {
    let mut out = stage.take_setup().sink();
    let words = stage.names.words(fields.all_or_none())?;
    let mut answer = Answer::new(stage.alloc);
    for at in 0..words.count() {
        match write_all(&mut out, words.get(at)) {
            Ok(()) => answer.say(b"written")?,
            Err(Failed) => answer.say(b"failed")?,
        }
    }
    answer.say(out.written())?;
    Ok(answer)
}

/// Reads each file of these names, behind what was read before, and at the end tells all that was read.
pub fn read_files(stage: &mut Stage, fields: &mut Fields<'_>) -> Result<Answer, Fault> {
    let names = stage.names.words(fields.all_or_none())?;
    let mut answer = Answer::new(stage.alloc);
    let mut text = Bytes::new(stage.alloc);
    for at in 0..names.count() {
        match stage.files.read(names.get(at), &mut text) {
            Ok(()) => answer.say(b"read")?,
            Err(FileErr::Missing) => answer.say(b"missing")?,
            Err(FileErr::Failed) => answer.say(b"failed")?,
            Err(FileErr::NoMemory) => return Err(Fault::NoMemory),
        }
    }
    answer.say(text.as_slice())?;
    Ok(answer)
}

/// Opens the feed at a port, and takes so many turns from it.
pub fn take_turns(stage: &mut Stage, fields: &mut Fields<'_>) -> Result<Answer, Fault> {
    let mut feed = stage.take_setup().feed(usize::MAX)?;
    let mut answer = Answer::new(stage.alloc);
    for _ in 0..fields.number()? {
        let mut buf = [0; DATAGRAM_ROOM];
        match feed.next(&mut buf) {
            Ok(turn) => say_turn(stage, turn, &buf, &mut answer)?,
            Err(Failed) => answer.say(b"failed")?,
        }
    }
    Ok(answer)
}

fn say_turn(
    stage: &Stage,
    turn: Turn,
    buf: &[u8; DATAGRAM_ROOM],
    answer: &mut Answer,
) -> Result<(), Fault> {
    let moment = turn.moment.get();
    match turn.input {
        Input::Quiet => answer.say(format!(in stage.alloc; "{moment} quiet")?.as_bytes())?,
        Input::End => answer.say(format!(in stage.alloc; "{moment} end")?.as_bytes())?,
        Input::Datagram { source, len } => {
            let mut line = Bytes::copy(
                stage.alloc,
                format!(in stage.alloc; "{moment} ")?.as_bytes(),
            )?;
            put_ip(source, &mut line)?;
            line.append(b" ")?;
            line.append(&buf[..len.min(buf.len())])?;
            answer.say(line.as_slice())?;
        }
    }
    Ok(())
}

/// Sends a datagram to a server and its port.
pub fn send(stage: &mut Stage, fields: &mut Fields<'_>) -> Result<Answer, Fault> {
    let server = stage.names.bytes(fields.word()?)?;
    let port = fields.port()?;
    let bytes = stage.names.bytes(fields.all()?)?;
    let mut answer = Answer::new(stage.alloc);
    match stage.link.send(server.as_slice(), port, bytes.as_slice()) {
        Ok(()) => answer.say(b"sent")?,
        Err(Failed) => answer.say(b"failed")?,
    }
    Ok(answer)
}

/// Draws from the entropy, each time as many bytes as a number says, into one buffer of four bytes, and tells the whole buffer.
pub fn draw(stage: &mut Stage, fields: &mut Fields<'_>) -> Result<Answer, Fault> {
    let mut entropy = MemEntropy::new(stage.alloc, stage.entropy.as_slice())?;
    let mut answer = Answer::new(stage.alloc);
    let mut buf = [0; 4];
    for word in fields.all()?.split(' ') {
        let count = Fields::new(word).size()?;
        if count > buf.len() {
            return Err(Fault::OutOfPlace);
        }
        let start = match entropy.fill(&mut buf[..count]) {
            Ok(()) => "drawn",
            Err(Failed) => "failed",
        };
        let text = hex_text(stage.alloc, &buf)?;
        answer.say(format!(in stage.alloc; "{start} {text}")?.as_bytes())?;
    }
    Ok(answer)
}
