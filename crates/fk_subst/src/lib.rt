//! The templates of commands: a line such as `/bin/open $IP $PROTO/$PORT`, cut once and filled for each grant.
//!
//! A template is a list of words, and a word a list of plain text and names. `split` cuts a text or says what is wrong
//! with it, and `fill` puts a grant's values in the place of the names, so that no value is ever cut into words. No
//! command is started here, and no file is read.
//!
//! Start at `template`; `specs/Template.antt` says what the template of a text is, and `specs/Fill.antt` what it is
//! filled with.
#![tactic(auto)]

mod fault;
mod filling;
mod laws;
mod piece;
mod scan;
mod template;
mod variable;
mod word;

pub use fault::CommandFault;
pub use filling::fill;
pub use laws::values_are_plain_bytes;
pub use piece::Piece;
pub use template::{Template, is_template, split};
pub use variable::Var;
