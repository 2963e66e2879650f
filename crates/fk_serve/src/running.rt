ghost use Rattle.fk_serve.specs.Causes.{FailsByAnswer};
ghost use Rattle.fk_words.specs.DaemonCommands.{IsForDaemon};
ghost use Rattle.fk_serve.specs.Ready.{EndsWell, MeetsNoFault};
ghost use Rattle.fk_serve.specs.Running.{Runs, RunsWords, serving_verbosity, trying_verbosity};
ghost use Rattle.fk_serve.specs.World.{world_by};
ghost use Rattle.std.specs.Prelude.{◌≡◌};

use crate::files::file_names;
use crate::help::{HELP, VERSION};
use crate::listing::list_records;
use crate::serving::{Asked, serve_by_files};
use crate::trying::try_by_files;
use fk_base::{Status, Words};
use fk_host::{Feed, Files, Host, Sink, Source};
use fk_ledger::no_area_holds_two_ledgers;
use fk_log::Verbosity;
use fk_program::{refusal_of_words, refuse, show_text};
use fk_run::Limits;
use fk_words::{Command, Tool, daemon_words_ask_for_one_command, read_words};
use std::alloc::Global;

/// Runs `fwknopd` on the words of its command line, without the program's name. Faults are tried in this order: the words, the
/// configuration's file, the access file, and then the disk and the feed of a serving run, the input of a trial, or the disk of a
/// list.
pub fn fwknopd_run<F: Files, E: Feed, H: Host, I: Source, K: Sink>(
    alloc: Global,
    words: &Words,
    files: &mut F,
    feed: &mut E,
    host: &mut H,
    input: &mut I,
    out: &mut K,
) -> Status
    ensures runs { let at = world_by F.Files E.Feed H.Disk I.Source K.Sink in
        RunsWords words.now (at files.old feed.old host.old input.old out.old) (at files.new feed.new host.new input.new out.new) result }
    ensures counts { let at = world_by F.Files E.Feed H.Disk I.Source K.Sink in
        FailsByAnswer result (at files.old feed.old host.old input.old out.old) (at files.new feed.new host.new input.new out.new) }
    ensures complete { let at = world_by F.Files E.Feed H.Disk I.Source K.Sink in
        MeetsNoFault words.now (at files.old feed.old host.old input.old out.old) (at files.new feed.new host.new input.new out.new)
        → EndsWell result }
{
    no_area_holds_two_ledgers();
    daemon_words_ask_for_one_command();
    match read_words(alloc, Tool::Daemon, words) {
        Ok(command) => run_command(alloc, &command, files, feed, host, input, out),
        Err(fault) => refuse(refusal_of_words(fault), out),
    }
}

/// Does what the words ask for.
fn run_command<F: Files, E: Feed, H: Host, I: Source, K: Sink>(
    alloc: Global,
    command: &Command,
    files: &mut F,
    feed: &mut E,
    host: &mut H,
    input: &mut I,
    out: &mut K,
) -> Status
    requires { IsForDaemon command.now }
    ensures runs { let at = world_by F.Files E.Feed H.Disk I.Source K.Sink in
        Runs command.now (at files.old feed.old host.old input.old out.old) (at files.new feed.new host.new input.new out.new) result }
    ensures counts { let at = world_by F.Files E.Feed H.Disk I.Source K.Sink in
        FailsByAnswer result (at files.old feed.old host.old input.old out.old) (at files.new feed.new host.new input.new out.new) }
{
    match command {
        Command::Serve {
            conf,
            access,
            packets,
            turns,
            verbose,
        } => {
            let names = file_names(conf, access);
            let asked = Asked {
                names,
                limits: Limits {
                    packets: *packets,
                    turns: *turns,
                },
                verbosity: verbosity_of(*verbose),
            };
            serve_by_files(alloc, &asked, files, feed, host, out)
        }
        Command::Trial {
            conf,
            access,
            quiet,
            verbose,
        } => {
            let names = file_names(conf, access);
            let verbosity = trying_verbosity(*quiet, *verbose);
            try_by_files(alloc, names, verbosity, files, input, out)
        }
        Command::List => list_records(alloc, host, out),
        Command::Help => show_text(HELP, out),
        Command::Version => show_text(VERSION, out),
        Command::Send(_)
        | Command::KeyGen
        | Command::Encode { .. }
        | Command::Decode { .. }
        | Command::Journal
        | Command::Generate { .. } => unreachable!(),
    }
}

fn trying_verbosity(quiet: bool, verbose: bool) -> Verbosity
    ensures { result ≡ trying_verbosity quiet verbose }
{
    if quiet {
        Verbosity::Quiet
    } else {
        verbosity_of(verbose)
    }
}

fn verbosity_of(verbose: bool) -> Verbosity
    ensures { result ≡ serving_verbosity verbose }
{
    if verbose {
        Verbosity::Verbose
    } else {
        Verbosity::Normal
    }
}
