//! How often a command is run.

use std::alloc::Global;
use tool_words::{BlessWord, Command, One};

/// How often a command that only reads is run at most, while another run is in its way.
const READS: u32 = 4;

/// How often these words are run at most, while another run is in the way. What may change something is run once.
pub(crate) fn tries_of(alloc: Global, words: &Vec<String>) -> u32 {
    match Command::read(alloc, words) {
        Ok(command) => {
            let only_reads = only_reads(&command);
            drop(command);
            if only_reads { READS } else { 1 }
        }
        Err(_) => 1,
    }
}

// Whether a command leaves each file as it is, and prints one reply.
fn only_reads(command: &Command) -> bool {
    match command {
        Command::One(command) => is_look(command),
        _ => false,
    }
}

// Whether a command of one action leaves each file as it is.
fn is_look(command: &One) -> bool {
    match command {
        One::List { .. } | One::LoaderShow { .. } | One::Inspect { .. } | One::Image { .. } => true,
        One::Identify { .. } | One::Calculate(_) => true,
        One::Bless { verb, .. } => *verb == BlessWord::Status,
        _ => false,
    }
}
