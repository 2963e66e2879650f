//! Worked rows as data: the language of row files, and the run over them.
//!
//! A row names a call, its arguments and the answer that is wanted. This crate reads the rows of its files, has each answered and
//! tells those whose answer is another. A program says which calls there are, by the trait `Calls`. What a row says is not known here,
//! and no promise rests on a row.
//!
//! Start at `Calls` in `running`; docs/rows.md has the language.
#![tactic(auto)]

mod answer;
mod arguments;
mod fault;
mod names;
mod piece;
mod report;
mod row;
mod row_cut;
mod running;
mod scanner;
mod term;

pub use answer::Answer;
pub use arguments::Arguments;
pub use fault::RowFault;
pub use running::{Calls, run_rows};
