ghost use Rattle.std.specs.Prelude.{◌≡◌, ◌++◌, ◌∷◌, [], OnOk, OnErr};
ghost use Rattle.fk_host.specs.Count.{HasCause};
ghost use Rattle.fk_host.specs.Stream.{Gives};
ghost use Rattle.fk_trace.specs.declared.change.OpenRecord.{OpenRecord};
ghost use Rattle.fk_log.specs.Item.{line_of};
ghost use Rattle.fk_log.specs.Line.{close_verb, config_text, good_text, line_front, line_text, listed_text, number_text, open_verb, purpose_text, usage_text, why_text, words_text};
ghost use Rattle.fk_log.specs.Line.Line.{ReadyLine, TurnLine, EndedLine, PollFailedLine, SettledLine, RefusedLine, GrantedLine, OpenedLine, ClosedLine, SummaryLine, FileMissingLine, FileFailedLine, DamagedLine};
ghost use Rattle.fk_log.specs.Private.{Puts, desk, text_of_pieces};
ghost use Rattle.fk_log.specs.Writing.{GivesPart};

use crate::draft::Draft;
use crate::piece::Piece::{self, Address, Command, Number, Port, Text};
use crate::{LogItem, Tally, UsageFault};
use fk_base::{Failed, Ip4, Moment, Purpose, Words};
use fk_host::Sink;
use fk_trace::{LogWhy, OpenRecord};

/// Writes the line. It takes no memory.
pub fn render<K: Sink>(item: &LogItem<'_>, out: &mut K) -> Result<(), Failed>
    ensures given { OnOk result (Gives (line_text (line_of item.now)) (K.written out.old) (K.written out.new)) }
    ensures part { OnErr result (GivesPart (line_text (line_of item.now)) (K.written out.old) (K.written out.new)) }
    ensures cause { HasCause (K.faults out.old) (K.faults out.new) result }
{
    let mut draft = Draft::new();
    put_line(item, &mut draft, out)?;
    draft.put_pieces(&[Text(b"\n")], out)?;
    draft.finish(out)
}

/// Puts the line without its line feed.
fn put_line<K: Sink>(item: &LogItem<'_>, draft: &mut Draft, out: &mut K) -> Result<(), Failed>
    ensures { Puts (line_front (line_of item.now)) result
        (desk draft.old (K.written out.old) (K.faults out.old)) (desk draft.new (K.written out.new) (K.faults out.new)) }
{
    match *item {
        LogItem::Ready { live } => draft.put_pieces(&[Text(b"ready "), Number(live)], out),
        LogItem::Turn { moment, number } => draft.put_pieces(&turn(moment, number), out),
        LogItem::Ended {
            moment,
            purpose,
            good,
        } => draft.put_pieces(&ended(moment, purpose, good), out),
        LogItem::PollFailed { moment, purpose } => draft.put_pieces(
            &poll_failed(moment, purpose),
            out,
        ),
        LogItem::Settled { moment, id } => draft.put_pieces(&settled(moment, id), out),
        LogItem::Refused {
            moment,
            source,
            why,
        } => draft.put_pieces(&refused(moment, source, why), out),
        LogItem::Granted {
            moment,
            source,
            id,
            stanza,
            due,
        } => draft.put_pieces(&granted(moment, source, id, stanza, due), out),
        LogItem::Opened {
            moment,
            id,
            words,
            begun,
        } => draft.put_pieces(&attempted(moment, open_verb(begun), id, words), out),
        LogItem::Closed {
            moment,
            id,
            words,
            begun,
        } => draft.put_pieces(&attempted(moment, close_verb(begun), id, words), out),
        LogItem::Summary { turns, tally, live } => draft.put_pieces(
            &summary(turns, tally, live),
            out,
        ),
        LogItem::Listed { item } => draft.put_pieces(&listed(item), out),
        LogItem::Usage { fault } => put_usage(fault, draft, out),
        LogItem::BadFile { name, line, what } => draft.put_pieces(
            &config(name, u64::from(line), what),
            out,
        ),
        LogItem::BadLine { line } => draft.put_pieces(&config(b"input", line, b"BadLine"), out),
        LogItem::LongInput { line } => draft.put_pieces(&config(b"input", line, b"TooLong"), out),
        LogItem::FileMissing { name } => draft.put_pieces(
            &[Text(b"file "), Text(name), Text(b" missing")],
            out,
        ),
        LogItem::FileFailed { name } => draft.put_pieces(
            &[Text(b"file "), Text(name), Text(b" failed")],
            out,
        ),
        LogItem::FeedFailed => draft.put_pieces(&[Text(b"feed failed")], out),
        LogItem::DiskFailed => draft.put_pieces(&[Text(b"disk failed")], out),
        LogItem::Damaged { place } => draft.put_pieces(&[Text(b"damaged "), Number(place)], out),
        LogItem::InputFailed => draft.put_pieces(&[Text(b"input failed")], out),
    }
}

fn turn<'a>(moment: Moment, number: u64) -> [Piece<'a>; 3]
    ensures { text_of_pieces result ≡ line_front (TurnLine moment number) }
{
    [Number(moment.get()), Text(b" turn "), Number(number)]
}

fn ended<'a>(moment: Moment, purpose: Purpose, good: bool) -> [Piece<'a>; 5]
    ensures { text_of_pieces result ≡ line_front (EndedLine moment purpose good) }
{
    let (verb, id) = purpose_parts(purpose);
    let end: &[u8] = if good { b" good" } else { b" bad" };
    [
        Number(moment.get()),
        Text(b" ended "),
        Text(verb),
        Number(id),
        Text(end),
    ]
}

fn poll_failed<'a>(moment: Moment, purpose: Purpose) -> [Piece<'a>; 5]
    ensures { text_of_pieces result ≡ line_front (PollFailedLine moment purpose) }
{
    let (verb, id) = purpose_parts(purpose);
    [
        Number(moment.get()),
        Text(b" poll "),
        Text(verb),
        Number(id),
        Text(b" failed"),
    ]
}

/// The purpose's word with a space behind it, and the number of its record.
fn purpose_parts(purpose: Purpose) -> (&'static [u8], u64)
    ensures { purpose_text purpose ≡ result.0.now ++ number_text result.1 }
{
    match purpose {
        Purpose::Open(id) => (b"open ", id),
        Purpose::Close(id) => (b"close ", id),
    }
}

fn settled<'a>(moment: Moment, id: u64) -> [Piece<'a>; 3]
    ensures { text_of_pieces result ≡ line_front (SettledLine moment id) }
{
    [Number(moment.get()), Text(b" settled "), Number(id)]
}

fn refused<'a>(moment: Moment, source: Ip4, why: LogWhy) -> [Piece<'a>; 5]
    ensures { text_of_pieces result ≡ line_front (RefusedLine moment source why) }
{
    [
        Number(moment.get()),
        Text(b" from "),
        Address(source),
        Text(b" refused "),
        Text(why_text(why)),
    ]
}

fn granted<'a>(moment: Moment, source: Ip4, id: u64, stanza: u32, due: u64) -> [Piece<'a>; 9]
    ensures { text_of_pieces result ≡ line_front (GrantedLine moment source id stanza due) }
{
    [
        Number(moment.get()),
        Text(b" from "),
        Address(source),
        Text(b" granted "),
        Number(id),
        Text(b" stanza "),
        Number(u64::from(stanza)),
        Text(b" until "),
        Number(due),
    ]
}

/// An attempt's line; the verb has a space at both ends.
fn attempted<'a>(moment: Moment, verb: &'a [u8], id: u64, words: &'a Words) -> [Piece<'a>; 5]
    ensures { text_of_pieces result ≡ number_text moment ++ verb.now ++ number_text id ++ 32 ∷ words_text words.now }
{
    [
        Number(moment.get()),
        Text(verb),
        Number(id),
        Text(b" "),
        Command(words),
    ]
}

fn open_verb(begun: bool) -> &'static [u8]
    ensures { result.now ≡ open_verb begun }
{
    if begun { b" open " } else { b" open-failed " }
}

fn close_verb(begun: bool) -> &'static [u8]
    ensures { result.now ≡ close_verb begun }
{
    if begun { b" close " } else { b" close-failed " }
}

fn summary<'a>(turns: u64, tally: Tally, live: u64) -> [Piece<'a>; 12]
    ensures { text_of_pieces result ≡ line_front (SummaryLine turns tally live) }
{
    [
        Text(b"summary turns "),
        Number(turns),
        Text(b" opens "),
        Number(tally.opens),
        Text(b" closes "),
        Number(tally.closes),
        Text(b" settled "),
        Number(tally.settled),
        Text(b" refused "),
        Number(tally.refused),
        Text(b" live "),
        Number(live),
    ]
}

fn listed(item: &OpenRecord) -> [Piece<'_>; 11]
    ensures { text_of_pieces result ≡ listed_text item.now }
{
    [
        Number(item.id),
        Text(b" "),
        Number(item.moment.get()),
        Text(b" "),
        Number(item.due),
        Text(b" "),
        Address(item.ip),
        Text(b" "),
        Port(item.pair),
        Text(b" "),
        Command(&item.close),
    ]
}

/// Puts what is wrong with the words of a command line, and where.
fn put_usage<K: Sink>(fault: UsageFault, draft: &mut Draft, out: &mut K) -> Result<(), Failed>
    ensures { Puts (usage_text fault) result
        (desk draft.old (K.written out.old) (K.faults out.old)) (desk draft.new (K.written out.new) (K.faults out.new)) }
{
    match fault {
        UsageFault::Unknown(place) => draft.put_pieces(&placed(b"usage unknown ", place), out),
        UsageFault::NoValue(place) => draft.put_pieces(&placed(b"usage value ", place), out),
        UsageFault::Twice(place) => draft.put_pieces(&placed(b"usage twice ", place), out),
        UsageFault::BadValue(place) => draft.put_pieces(&placed(b"usage bad ", place), out),
        UsageFault::Modes => draft.put_pieces(&[Text(b"usage modes")], out),
    }
}

fn placed<'a>(front: &'a [u8], place: u64) -> [Piece<'a>; 2]
    ensures { text_of_pieces result ≡ front.now ++ number_text place }
{
    [Text(front), Number(place)]
}

fn config<'a>(name: &'a [u8], line: u64, what: &'a [u8]) -> [Piece<'a>; 6]
    ensures { text_of_pieces result ≡ config_text name.now line what.now }
{
    [
        Text(b"config "),
        Text(name),
        Text(b" "),
        Number(line),
        Text(b" "),
        Text(what),
    ]
}

fn why_text(why: LogWhy) -> &'static [u8]
    ensures { result.now ≡ why_text why }
{
    match why {
        LogWhy::Shape => b"shape",
        LogWhy::Prefix => b"prefix",
        LogWhy::Replay => b"replay",
        LogWhy::NoStanza => b"no-stanza",
        LogWhy::Expired => b"expired",
        LogWhy::Mac => b"mac",
        LogWhy::Cipher => b"cipher",
        LogWhy::Plain => b"plain",
        LogWhy::Kind => b"kind",
        LogWhy::Age => b"age",
        LogWhy::User => b"user",
        LogWhy::Source => b"source",
        LogWhy::Port => b"port",
        LogWhy::Stale => b"stale",
        LogWhy::Full => b"full",
    }
}
