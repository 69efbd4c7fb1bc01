//! The commands on the `loader.conf` of an EFI system partition (loader.conf(5)), each planned by reads alone: what is
//! told of the entry that boots by default, and the change of the default or of the timeout.
#![tactic(auto)]

mod laws;
mod places;
mod set;
mod show;

pub use laws::{setting_changes_one_key, show_tells_of_the_default};
pub use set::{plan_default, plan_timeout};
pub use show::plan_show;
