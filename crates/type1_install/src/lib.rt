//! Entries of type 1 with their payloads: kernels and initrds that stand in an EFI system partition under their
//! digests, where entries name them.
//!
//! `type1 install` and `type1 cleanup` stand for several commands each, which are found by reads alone: a file is put
//! at the place of its payload, an entry is entered, a payload is removed. Each of these is planned here too. The digest
//! is that of the whole file, which is read in pieces.
#![tactic(auto)]

mod alike;
mod cleanup;
mod install_words;
mod installation;
mod naming;
mod payload;
mod place;
mod placing;
mod sweeping;
mod whole;

pub use cleanup::{cleanup_expansion, removals};
pub use installation::install_expansion;
pub use placing::{plan_enter, plan_put, plan_remove};
pub use sweeping::payload_leftovers;
