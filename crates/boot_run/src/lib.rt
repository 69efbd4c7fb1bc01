//! One run of the program over any machine: its words, lines of commands, scripts, and how it ends.
#![tactic(auto)]

mod ended;
mod expansion;
mod input;
mod line;
mod lines;
mod recovery;
mod script;
mod top;

pub use ended::Ended;
pub use top::run;
