//! The commands of the program but for scripts: what each of one action and each action of the others comes to on the boot
//! files, the actions of a command that has several, and functions that carry either out on a machine. `demo` carries out
//! others on a machine in memory.
#![tactic(auto)]

mod actions;
mod carrying;
mod demo;
mod demo_images;
mod demo_turns;
mod draws;
mod expanding;
mod ones;
mod sweeping;

pub use actions::run_action;
pub use demo_images::demo_image;
pub use expanding::expand;
pub use ones::run_one;
pub use sweeping::find_leftovers;
