//! The program `fwknopd` whole: the words of the command line are read, and the files that they name; then the turns of the feed are
//! served, the lines of the input are tried, the live records are listed, or a text of the program is printed. A fault is told by one line.
//!
//! What serving is stands in `fk_daemon`, what a trial is in `fk_trial`, what the words mean in `fk_words`, what the files mean in
//! `fk_conf` and `fk_access`, how a fault of them is told in `fk_program`, and what a journal holds in `fk_ledger`. The objects of the system are handed in.
//!
//! Start at `running`; `specs/Running.antt` says what a run does, and `specs/Causes.antt` which object failed, by its answer.
#![tactic(auto)]

mod fault_names;
mod files;
mod help;
mod history;
mod laws;
mod listing;
mod running;
mod serving;
mod trying;

pub use history::calls_of_the_program_are_a_history;
pub use laws::version_has_its_text;
pub use running::fwknopd_run;
