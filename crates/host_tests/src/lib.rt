//! Tests of the machine on a real folder: what its calls do to the folder, and what is told where they fail. No clause
//! says it. There is no other code here.
#![tactic(auto)]

#[cfg(test)]
mod tests;
