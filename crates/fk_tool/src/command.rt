ghost use Rattle.std.specs.Prelude.{◌≡◌, ◌↔◌, IsErr};
ghost use Rattle.fk_words.specs.CommandOf.{IsCommandOf};
ghost use Rattle.fk_words.specs.Limits.{HasLimits};
ghost use Rattle.fk_words.specs.ReadsWords.{set_read};
ghost use Rattle.fk_words.specs.declared.tool.Tool.TheVariants.{Fko};
ghost use Rattle.fk_host.specs.Count.{Rose};
ghost use Rattle.fk_program.specs.Files.{files_by};
ghost use Rattle.fk_tool.specs.Causes.{FailsByAnswer};
ghost use Rattle.fk_tool.specs.Outside.{outside_by};
ghost use Rattle.fk_tool.specs.Ready.{EndsAs, MeetsNoFault, NamesNoFile, NamesWrongFile};
ghost use Rattle.fk_tool.specs.Running.{Runs, RunsTool};

use crate::generating::generate;
use crate::help::{HELP, VERSION};
use crate::input::{decode_input, encode_input};
use crate::journal::show_journal;
use fk_base::{Status, Words};
use fk_client::make_keys;
use fk_host::{Disk, Entropy, Files, Sink, Source};
use fk_ledger::no_area_holds_two_ledgers;
use fk_program::{refusal_of_words, refuse, show_text};
use fk_words::{
    Command, Tool, read_words, tool_words_ask_for_one_command, words_ask_for_their_program,
};
use std::alloc::Global;

/// Runs `fko` on the words of its command line, without the program's name. Faults are tried in this order: the words, the client's
/// file, what it needs of a stanza, the disk, and then line by line the input, the line's form and the entropy. Where the output fails
/// nothing is written any more.
pub fn fko_run<F: Files, N: Entropy, D: Disk, I: Source, K: Sink>(
    alloc: Global,
    words: &Words,
    files: &mut F,
    entropy: &mut N,
    disk: &mut D,
    input: &mut I,
    out: &mut K,
) -> Status
    ensures runs { let at = outside_by F.Files N.Entropy D.Disk I.Source K.Sink in
        RunsTool words.now (at files.old entropy.old disk.old input.old out.old) (at files.new entropy.new disk.new input.new out.new) result }
    ensures usage { (result ≡ Status.Usage) ↔ IsErr (set_read Fko words.now) }
    ensures missing { NamesNoFile words.now (files_by F.Files files.old) → EndsAs Status.FileFault result }
    ensures config { NamesWrongFile words.now (files_by F.Files files.old) → ¬ Rose (F.faults files.old) (F.faults files.new) → EndsAs Status.Config result }
    ensures counts { let at = outside_by F.Files N.Entropy D.Disk I.Source K.Sink in
        FailsByAnswer result (at files.old entropy.old disk.old input.old out.old) (at files.new entropy.new disk.new input.new out.new) }
    ensures complete { let at = outside_by F.Files N.Entropy D.Disk I.Source K.Sink in
        MeetsNoFault words.now (at files.old entropy.old disk.old input.old out.old) (at files.new entropy.new disk.new input.new out.new) → EndsAs Status.Done result }
{
    no_area_holds_two_ledgers();
    tool_words_ask_for_one_command();
    run_words(alloc, words, files, entropy, disk, input, out)
}

/// Reads the words, and does what they ask for, or tells why they are no command.
fn run_words<F: Files, N: Entropy, D: Disk, I: Source, K: Sink>(
    alloc: Global,
    words: &Words,
    files: &mut F,
    entropy: &mut N,
    disk: &mut D,
    input: &mut I,
    out: &mut K,
) -> Status
    ensures { let at = outside_by F.Files N.Entropy D.Disk I.Source K.Sink in
        RunsTool words.now (at files.old entropy.old disk.old input.old out.old) (at files.new entropy.new disk.new input.new out.new) result }
{
    words_ask_for_their_program();
    match read_words(alloc, Tool::Fko, words) {
        Ok(command) => run_command(alloc, &command, files, entropy, disk, input, out),
        Err(fault) => refuse(refusal_of_words(fault), out),
    }
}

/// Does what the words ask for.
fn run_command<F: Files, N: Entropy, D: Disk, I: Source, K: Sink>(
    alloc: Global,
    command: &Command,
    files: &mut F,
    entropy: &mut N,
    disk: &mut D,
    input: &mut I,
    out: &mut K,
) -> Status
    requires own { IsCommandOf Fko command.now }
    requires limits { HasLimits command.now }
    ensures { let at = outside_by F.Files N.Entropy D.Disk I.Source K.Sink in
        Runs command.now (at files.old entropy.old disk.old input.old out.old) (at files.new entropy.new disk.new input.new out.new) result }
{
    match command {
        Command::Generate { count } => generate(alloc, *count, out),
        Command::KeyGen => make_keys(alloc, entropy, out),
        Command::Journal => show_journal(alloc, disk, out),
        Command::Encode { file, name } => {
            let (file, name) = (file.as_slice(), name.as_slice());
            encode_input(alloc, file, name, files, entropy, input, out)
        }
        Command::Decode { file, name } => {
            let (file, name) = (file.as_slice(), name.as_slice());
            decode_input(alloc, file, name, files, entropy, input, out)
        }
        Command::Help => show_text(HELP, out),
        Command::Version => show_text(VERSION, out),
        Command::Serve { .. } | Command::Trial { .. } | Command::List | Command::Send(_) => {
            unreachable!()
        }
    }
}
