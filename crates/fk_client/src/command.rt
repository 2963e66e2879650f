ghost use Rattle.std.specs.Prelude.{◌≡◌, ◌↔◌, IsErr};
ghost use Rattle.fk_words.specs.CommandOf.{IsCommandOf};
ghost use Rattle.fk_words.specs.ReadsWords.{set_read};
ghost use Rattle.fk_words.specs.declared.tool.Tool.TheVariants.{Client};
ghost use Rattle.fk_host.specs.Count.{Rose};
ghost use Rattle.fk_client.specs.Causes.{FailsByAnswer};
ghost use Rattle.fk_client.specs.Outside.{outside_by};
ghost use Rattle.fk_client.specs.Ready.{EndsAs, MeetsNoFault, NamesNoFile, NamesWrongFile};
ghost use Rattle.fk_client.specs.Running.{Runs, RunsClient};
ghost use Rattle.fk_program.specs.Files.{files_by};

use crate::help::{HELP, VERSION};
use crate::key_making::make_keys;
use crate::sending::run_send;
use fk_base::{Moment, Status, Words};
use fk_host::{Entropy, Files, Link, Sink};
use fk_program::{refusal_of_words, refuse, show_text};
use fk_words::{
    Command, Tool, client_words_ask_for_one_packet, read_words, words_ask_for_their_program,
};
use std::alloc::Global;

/// Runs `fwknop` on the words of its command line, without the program's name, at this moment. Faults are tried in this order: the
/// words, the client's file, what it needs of settings, the entropy, the link, the output.
pub fn fwknop_run<F: Files, N: Entropy, L: Link, K: Sink>(
    alloc: Global,
    words: &Words,
    files: &mut F,
    entropy: &mut N,
    moment: Moment,
    link: &mut L,
    out: &mut K,
) -> Status
    ensures runs { let at = outside_by F.Files N.Entropy L.Link K.Sink in
        RunsClient words.now moment (at files.old entropy.old link.old out.old) (at files.new entropy.new link.new out.new) result }
    ensures usage { (result ≡ Status.Usage) ↔ IsErr (set_read Client words.now) }
    ensures missing { NamesNoFile words.now (files_by F.Files files.old) → EndsAs Status.FileFault result }
    ensures config { NamesWrongFile words.now (files_by F.Files files.old) → ¬ Rose (F.faults files.old) (F.faults files.new) → EndsAs Status.Config result }
    ensures counts { let at = outside_by F.Files N.Entropy L.Link K.Sink in
        FailsByAnswer result (at files.old entropy.old link.old out.old) (at files.new entropy.new link.new out.new) }
    ensures complete { let at = outside_by F.Files N.Entropy L.Link K.Sink in
        MeetsNoFault words.now (at files.old entropy.old link.old out.old) (at files.new entropy.new link.new out.new) → EndsAs Status.Done result }
{
    client_words_ask_for_one_packet();
    run_words(alloc, words, files, entropy, moment, link, out)
}

/// Reads the words, and does what they ask for, or tells why they are no command.
fn run_words<F: Files, N: Entropy, L: Link, K: Sink>(
    alloc: Global,
    words: &Words,
    files: &mut F,
    entropy: &mut N,
    moment: Moment,
    link: &mut L,
    out: &mut K,
) -> Status
    ensures { let at = outside_by F.Files N.Entropy L.Link K.Sink in
        RunsClient words.now moment (at files.old entropy.old link.old out.old) (at files.new entropy.new link.new out.new) result }
{
    words_ask_for_their_program();
    match read_words(alloc, Tool::Client, words) {
        Ok(command) => run_command(alloc, &command, files, entropy, moment, link, out),
        Err(fault) => refuse(refusal_of_words(fault), out),
    }
}

/// Does what the words ask for.
fn run_command<F: Files, N: Entropy, L: Link, K: Sink>(
    alloc: Global,
    command: &Command,
    files: &mut F,
    entropy: &mut N,
    moment: Moment,
    link: &mut L,
    out: &mut K,
) -> Status
    requires { IsCommandOf Client command.now }
    ensures { let at = outside_by F.Files N.Entropy L.Link K.Sink in
        Runs command.now moment (at files.old entropy.old link.old out.old) (at files.new entropy.new link.new out.new) result }
{
    match command {
        Command::Send(send) => run_send(alloc, send, files, entropy, moment, link, out),
        Command::KeyGen => make_keys(alloc, entropy, out),
        Command::Help => show_text(HELP, out),
        Command::Version => show_text(VERSION, out),
        Command::Serve { .. }
        | Command::Trial { .. }
        | Command::List
        | Command::Encode { .. }
        | Command::Decode { .. }
        | Command::Journal
        | Command::Generate { .. } => unreachable!(),
    }
}
