//! What is printed for one line of the input.
ghost use Rattle.std.specs.Prelude.{◌≡◌, ◌↔◌, IsTrue, MatchResult};
ghost use Rattle.std.specs.List.{list_all};
ghost use Rattle.fk_client.specs.Outside.{EntropyView, entropy_by};
ghost use Rattle.fk_tool.specs.Answers.{IsVisibleText, is_visible};
ghost use Rattle.fk_tool.specs.Private.{IsAnswered, IsUnanswered};
ghost use Rattle.fk_tool.specs.declared.job.Job.TheVariants.{Decode, Encode};

use crate::decoded::decoded_line;
use crate::encode_line::read_encode_line;
use crate::encoded::encoded_line;
use crate::job::Job;
use crate::stop::Stop;
use fk_base::{Bytes, Failed, NoMemory};
use fk_client::Sealing;
use fk_host::Entropy;
use std::alloc::Global;

/// How many random bytes a packet takes for its salt.
const SALT_BYTES: usize = 8;

/// The text that is printed for a line, or why the job ends with it. The line is tested before anything is drawn for it.
pub(crate) fn answer<N: Entropy>(
    alloc: Global,
    job: &Job,
    line: &[u8],
    entropy: &mut N,
) -> Result<Bytes, Stop>
    ensures { let at = entropy_by N.Entropy in MatchResult result
        (λ text. IsAnswered job.now line.now text (at entropy.old) (at entropy.new))
        (λ stop. IsUnanswered job.now line.now stop (at entropy.old) (at entropy.new)) }
{
    match job {
        Job::Encode(sealing) => encode_answer(alloc, sealing, line, entropy),
        Job::Decode(sealing) => decode_answer(alloc, sealing, line),
    }
}

/// The datagram of a line, with a salt that is drawn for it.
fn encode_answer<N: Entropy>(
    alloc: Global,
    sealing: &Sealing,
    line: &[u8],
    entropy: &mut N,
) -> Result<Bytes, Stop>
    ensures { let at = entropy_by N.Entropy in MatchResult result
        (λ text. IsAnswered (Encode sealing.now) line.now text (at entropy.old) (at entropy.new))
        (λ stop. IsUnanswered (Encode sealing.now) line.now stop (at entropy.old) (at entropy.new)) }
{
    let Some(asked) = read_encode_line(line) else {
        return Err(Stop::BadLine);
    };
    let mut salt = [0; SALT_BYTES];
    if let Err(Failed) = entropy.fill(&mut salt) {
        return Err(Stop::EntropyFault);
    }
    match encoded_line(alloc, sealing, asked, salt) {
        Ok(text) => Ok(text),
        Err(NoMemory) => Err(Stop::NoMemory),
    }
}

/// The fields of the datagram that a line is, or its refusal. Nothing is drawn.
fn decode_answer(alloc: Global, sealing: &Sealing, line: &[u8]) -> Result<Bytes, Stop>
    ensures { (entropy : EntropyView) → MatchResult result
        (λ text. IsAnswered (Decode sealing.now) line.now text entropy entropy)
        (λ stop. IsUnanswered (Decode sealing.now) line.now stop entropy entropy) }
{
    if !is_visible_text(line) {
        return Err(Stop::BadLine);
    }
    match decoded_line(alloc, &sealing.keys, line) {
        Ok(text) => Ok(text),
        Err(NoMemory) => Err(Stop::NoMemory),
    }
}

fn is_visible_text(text: &[u8]) -> bool
    ensures { IsTrue result ↔ IsVisibleText text.now }
{
    !text.is_empty() && is_all_visible(text)
}

fn is_all_visible(text: &[u8]) -> bool
    ensures { result ≡ list_all is_visible text.now }
{
    text.iter().all(u8::is_ascii_graphic)
}
