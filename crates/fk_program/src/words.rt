use fk_base::{NoMemory, Words};
use std::alloc::Global;
use std::env::{Env, FillError};

/// The longest word that the system hands a program, in bytes.
const WORD_ROOM: usize = 131_072;

/// The words of the command line byte by byte, without the program's name. So one that is not UTF-8 is refused at its place.
pub fn argument_words<R: Env>(alloc: Global, rt: &R) -> Result<Words, NoMemory> {
    let mut words = Words::new(alloc);
    let mut room = vec![in alloc; 0; WORD_ROOM]?;
    for place in 1..usize::MAX {
        match rt.arg(place, &mut room) {
            Ok(len) => words.push(&room[..len])?,
            Err(FillError::NotPresent) => return Ok(words),
            Err(FillError::TooLong) => return Err(NoMemory),
        }
    }
    Ok(words)
}
