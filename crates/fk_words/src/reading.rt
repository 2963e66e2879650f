ghost use Rattle.std.specs.Prelude.{◌≡◌, ◌≤◌, IfOk, IfSome, IsErr, MatchResult, None, Some, find, if◌then◌else◌, true, unwrap_or};
ghost use Rattle.fk_base.specs.Address.{ip_in};
ghost use Rattle.fk_values.specs.Values.{host_in, is_host, number_within};
ghost use Rattle.fk_words.specs.CommandOptions.{pairs_unbroken};
ghost use Rattle.fk_words.specs.Limits.{HasLimits};
ghost use Rattle.fk_words.specs.Operands.{count_in};
ghost use Rattle.fk_words.specs.OptionSets.{fits, sets_of, stands};
ghost use Rattle.fk_words.specs.ReadsWords.{IsCommand, IsSend, IsWordErr, ReadsWords, asked_address, keeps_names, read_from, set_read, set_unless, value_of};
ghost use Rattle.fk_words.specs.WordFaults.{words_fault};
ghost use Rattle.fk_words.specs.WordPlaces.{word_at};

use crate::command_option::{CommandOption, GREATEST_LIMIT, read_unbroken_pairs};
use crate::operand::GREATEST_COUNT;
use crate::operand_walk::read_fko;
use crate::option_set::OptionSet;
use crate::word_places::{is_in, is_only, word_behind};
use crate::word_walk::words_fault;
use crate::{Command, SendWords, Tool, WordFault};
use fk_base::{Bytes, Ip4, LONGEST_TIME, NoMemory, Pairs, Words, find_ip};
use fk_values::{is_host, read_number};
use std::alloc::Global;

/// Reads the words of a program's command line, without the program's name.
pub fn read_words(alloc: Global, tool: Tool, words: &Words) -> Result<Command, WordFault>
    ensures command { MatchResult result (ReadsWords tool words.now) (IsWordErr tool words.now) }
    ensures limits { IfOk result HasLimits }
{
    let set = match read_set(tool, words) {
        Ok(set) => set,
        Err(fault) => return Err(fault),
    };
    match command_of(alloc, set, words) {
        Ok(command) => Ok(command),
        Err(NoMemory) => Err(WordFault::NoMemory),
    }
}

/// The set that the words make, or the first test that they fail. It takes no memory.
fn read_set(tool: Tool, words: &Words) -> Result<OptionSet, WordFault>
    ensures { result ≡ set_read tool words.now }
{
    if is_only(words, b"--help") {
        return Ok(OptionSet::Help);
    }
    if is_only(words, b"--version") {
        return Ok(OptionSet::Version);
    }
    match tool {
        Tool::Daemon | Tool::Client => read_options(tool, words),
        Tool::Fko => read_fko(words),
    }
}

/// The set that the options make, or the first test that the words fail.
fn read_options(tool: Tool, words: &Words) -> Result<OptionSet, WordFault>
    ensures { result ≡ set_unless (words_fault tool words.now) (find (fits tool words.now) (sets_of tool)) }
{
    if let Some(fault) = words_fault(tool, words) {
        return Err(fault);
    }
    match fitting_set(tool, words) {
        Some(set) => Ok(set),
        None => Err(WordFault::Modes),
    }
}

fn fitting_set(tool: Tool, words: &Words) -> Option<OptionSet>
    ensures { result ≡ find (λ set. fits tool words.now set) (sets_of tool) }
{
    tool.sets()
        .iter()
        .copied()
        .find(|set| set.fits(tool, words))
}

/// What the words of this set ask for.
fn command_of(alloc: Global, set: OptionSet, words: &Words) -> Result<Command, NoMemory>
    ensures command { IfOk result (IsCommand words.now set) }
    ensures limits { IfOk result HasLimits }
    ensures memory { IsErr result → keeps_names set ≡ true }
{
    match set {
        OptionSet::Serve => serve_of(alloc, words),
        OptionSet::Trial => trial_of(alloc, words),
        OptionSet::List => Ok(Command::List),
        OptionSet::SendForAddress | OptionSet::SendForSource => {
            Ok(Command::Send(send_of(alloc, words)?))
        }
        OptionSet::KeyGen => Ok(Command::KeyGen),
        OptionSet::Encode => Ok(Command::Encode {
            file: operand_of(alloc, words, 1)?,
            name: operand_of(alloc, words, 2)?,
        }),
        OptionSet::Decode => Ok(Command::Decode {
            file: operand_of(alloc, words, 1)?,
            name: operand_of(alloc, words, 2)?,
        }),
        OptionSet::Journal => Ok(Command::Journal),
        OptionSet::Generate => Ok(Command::Generate {
            count: count_of(words),
        }),
        OptionSet::Help => Ok(Command::Help),
        OptionSet::Version => Ok(Command::Version),
    }
}

fn serve_of(alloc: Global, words: &Words) -> Result<Command, NoMemory>
    ensures command { IfOk result (IsCommand words.now OptionSet.Serve) }
    ensures limits { IfOk result HasLimits }
{
    Ok(Command::Serve {
        conf: name_of(alloc, CommandOption::ConfFile, words, b"")?,
        access: name_of(alloc, CommandOption::AccessFile, words, b"")?,
        packets: number_of(CommandOption::PacketLimit, words, GREATEST_LIMIT),
        turns: number_of(CommandOption::TurnLimit, words, GREATEST_LIMIT),
        verbose: is_in(words, CommandOption::Verbose.word()),
    })
}

fn trial_of(alloc: Global, words: &Words) -> Result<Command, NoMemory>
    ensures command { IfOk result (IsCommand words.now OptionSet.Trial) }
    ensures limits { IfOk result HasLimits }
{
    Ok(Command::Trial {
        conf: name_of(alloc, CommandOption::ConfFile, words, b"")?,
        access: name_of(alloc, CommandOption::AccessFile, words, b"")?,
        quiet: is_in(words, CommandOption::Quiet.word()),
        verbose: is_in(words, CommandOption::Verbose.word()),
    })
}

fn send_of(alloc: Global, words: &Words) -> Result<SendWords, NoMemory>
    ensures { IfOk result (IsSend words.now) }
{
    Ok(SendWords {
        name: name_of(alloc, CommandOption::StanzaName, words, b"default")?,
        file: name_of(alloc, CommandOption::RcFileName, words, b".fwknoprc")?,
        pairs: pairs_of(words),
        allow: asked_address(words),
        server: server_of(alloc, words)?,
        port: port_of(words),
        seconds: seconds_of(words),
        print: is_in(words, CommandOption::Print.word()),
    })
}

/// The value of an option, or what holds without it.
fn name_of(
    alloc: Global,
    option: CommandOption,
    words: &Words,
    default: &[u8],
) -> Result<Bytes, NoMemory>
    ensures { IfOk result (λ name. name ≡ unwrap_or (value_of option words.now) default.now) }
{
    match word_behind(words, option.word()) {
        Some(name) => Bytes::copy(alloc, name),
        None => Bytes::copy(alloc, default),
    }
}

/// The word at this place, from 0.
fn operand_of(alloc: Global, words: &Words, at: usize) -> Result<Bytes, NoMemory>
    ensures { IfOk result (λ name. name ≡ word_at words.now at) }
{
    if at < words.count() {
        Bytes::copy(alloc, words.get(at))
    } else {
        Bytes::copy(alloc, b"")
    }
}

/// How many lines to make.
fn count_of(words: &Words) -> u64
    ensures count { result ≡ unwrap_or (count_in (word_at words.now 1)) 1 }
    ensures within { (1 ≤ result) × (result ≤ GREATEST_COUNT) }
{
    if words.count() < 2 {
        return 1;
    }
    match read_number(words.get(1), 1, GREATEST_COUNT) {
        Some(count) => count,
        None => 1,
    }
}

fn server_of(alloc: Global, words: &Words) -> Result<Option<Bytes>, NoMemory>
    ensures server { IfOk result (λ server. server ≡ read_from host_in CommandOption.Server words.now) }
    ensures right { IfOk result (λ server. IfSome server (λ s. is_host s ≡ true)) }
{
    match word_behind(words, CommandOption::Server.word()) {
        Some(server) if is_host(server) => Ok(Some(Bytes::copy(alloc, server)?)),
        _ => Ok(None),
    }
}

/// The number from 1 to `most` that the value of an option is.
fn number_of(option: CommandOption, words: &Words, most: u64) -> Option<u64>
    ensures number { result ≡ read_from (number_within 1 most) option words.now }
    ensures within { IfSome result (λ number. (1 ≤ number) × (number ≤ most)) }
{
    read_number(word_behind(words, option.word())?, 1, most)
}

fn port_of(words: &Words) -> Option<u16>
    ensures number { result ≡ read_from (number_within 1 65535) CommandOption.ServerPort words.now }
    ensures within { IfSome result (λ port. 1 ≤ port) }
{
    let port = number_of(CommandOption::ServerPort, words, 65_535)?;
    Some(port as u16)
}

fn seconds_of(words: &Words) -> Option<u32>
    ensures number { result ≡ read_from (number_within 1 LONGEST_TIME) CommandOption.Seconds words.now }
    ensures within { IfSome result (λ seconds. (1 ≤ seconds) × (seconds ≤ LONGEST_TIME)) }
{
    let seconds = number_of(CommandOption::Seconds, words, LONGEST_TIME)?;
    Some(seconds as u32)
}

fn pairs_of(words: &Words) -> Option<Pairs>
    ensures { result ≡ read_from pairs_unbroken CommandOption.PairList words.now }
{
    read_unbroken_pairs(word_behind(words, CommandOption::PairList.word())?)
}

fn asked_address(words: &Words) -> Option<Ip4>
    ensures { result ≡ asked_address words.now }
{
    match given_address(words) {
        Some(address) => Some(address),
        None => source_address(words),
    }
}

fn given_address(words: &Words) -> Option<Ip4>
    ensures { result ≡ read_from ip_in CommandOption.Address words.now }
{
    find_ip(word_behind(words, CommandOption::Address.word())?)
}

/// 0.0.0.0 where the packet's source is asked for.
fn source_address(words: &Words) -> Option<Ip4>
    ensures { result ≡ (if stands CommandOption.PacketSource words.now then Some (record { 0 = 0 }) else None) }
{
    if is_in(words, CommandOption::PacketSource.word()) {
        Some(Ip4(0))
    } else {
        None
    }
}
