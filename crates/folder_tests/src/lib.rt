//! Tests of the machine on a folder: whole commands, each with a call that fails, and with another run between two of
//! its calls, and in which order a command makes its syncs. No clause says what comes of these. There is no other code
//! here.
#![tactic(auto)]

#[cfg(test)]
mod tests;
