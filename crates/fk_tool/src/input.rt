//! The lines of the input are packed or opened by a stanza of the client's file.
ghost use Rattle.std.specs.Prelude.{◌≡◌};
ghost use Rattle.fk_client.specs.Outside.{entropy_by};
ghost use Rattle.fk_log.specs.Printing.{sink_by};
ghost use Rattle.fk_program.specs.Files.{files_by};
ghost use Rattle.fk_tool.specs.Running.{RunsJob};
ghost use Rattle.fk_tool.specs.Streams.{AnswersInput, streams_by};
ghost use Rattle.fk_tool.specs.declared.job.Job.TheVariants.{Decode, Encode};

use crate::job::Job;
use crate::session::Session;
use fk_base::Status;
use fk_client::{refuse, sealing_by};
use fk_host::{Entropy, Files, Sink, Source};
use std::alloc::Global;

/// Packs what each line asks for, by the stanza of this name in the file of that name.
pub(crate) fn encode_input<F: Files, N: Entropy, I: Source, K: Sink>(
    alloc: Global,
    file: &[u8],
    name: &[u8],
    files: &mut F,
    entropy: &mut N,
    input: &mut I,
    out: &mut K,
) -> Status
    ensures { let of = files_by F.Files in let at = streams_by N.Entropy I.Source K.Sink in
        RunsJob Encode file.now name.now (of files.old) (of files.new) (at entropy.old input.old out.old) (at entropy.new input.new out.new) result }
{
    match sealing_by(alloc, file, name, files) {
        Ok(sealing) => answer_input(alloc, &Job::Encode(sealing), entropy, input, out),
        Err(refusal) => refuse(refusal, out),
    }
}

/// Opens the datagram that each line is, by the stanza of this name in the file of that name.
pub(crate) fn decode_input<F: Files, N: Entropy, I: Source, K: Sink>(
    alloc: Global,
    file: &[u8],
    name: &[u8],
    files: &mut F,
    entropy: &mut N,
    input: &mut I,
    out: &mut K,
) -> Status
    ensures { let of = files_by F.Files in let at = streams_by N.Entropy I.Source K.Sink in
        RunsJob Decode file.now name.now (of files.old) (of files.new) (at entropy.old input.old out.old) (at entropy.new input.new out.new) result }
{
    match sealing_by(alloc, file, name, files) {
        Ok(sealing) => answer_input(alloc, &Job::Decode(sealing), entropy, input, out),
        Err(refusal) => refuse(refusal, out),
    }
}

/// Answers each line of the input, and tells why one is not.
fn answer_input<N: Entropy, I: Source, K: Sink>(
    alloc: Global,
    job: &Job,
    entropy: &mut N,
    input: &mut I,
    out: &mut K,
) -> Status
    ensures { let at = streams_by N.Entropy I.Source K.Sink in
        AnswersInput job.now (at entropy.old input.old out.old) (at entropy.new input.new out.new) result }
{
    let mut session = Session::new();
    let stop = session.answer_lines(alloc, job, entropy, input, out);
    session.end(stop, out)
}
