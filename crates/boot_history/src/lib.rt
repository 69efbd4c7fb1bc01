//! The laws over histories: whatever a machine went through, runs, stops in the middle of them, disk faults and
//! restarts.
#![tactic(auto)]

ghost use Rattle.std.specs.Prelude.{IsTrue};
ghost use Rattle.boot_history.specs.GoodEntries.{GoodEntryLaw, ListedLaw};
ghost use Rattle.boot_history.specs.Histories.{StartLaw, StopLaw};
ghost use Rattle.boot_history.specs.Keeping.{KeptLaw};
ghost use Rattle.boot_history.specs.Newest.{KeepSparesLaw, NewestLaw, ToldLaw, UnrefusedLaw};
ghost use Rattle.boot_history.specs.Numbers.{HistoryLaw};
ghost use Rattle.boot_history.specs.Payloads.{CleanupKeepsLaw, InstallKeepsLaw, PayloadLaw, RemovalKeepsLaw};
ghost use Rattle.boot_history.specs.Replying.{ReplyLaw};
ghost use Rattle.boot_history.specs.Unrefused.{ExpansionUnrefusedLaw, WholeExpansionLaw};

mod each;
mod stop;
#[cfg(test)]
mod tests;

use boot_machine::Machine;
pub use each::run_each;
pub use stop::run_and_stop;

/// The law of histories. A history begins where boot sees one view whatever a stop leaves, as on a settled machine, and
/// is a list of runs, each of which may be stopped. Each view at its end is due to a number of whole commands of each
/// run, in order: those that the run acknowledged or one more, and at most all of its commands. What each run printed
/// is a first part of the replies from the view that the earlier numbers give, or of its usage line.
pub fn history_law()
    ensures starts { StartLaw }
    ensures numbers { HistoryLaw }
{}

/// A power cut behind a run is a stop of that run, on any machine that tells its files: if each moment since its start
/// is one at which a stop of the run would be a step of a history, so is a stop at its end. `run` says that of each
/// moment, and `MemMachine::crash` leaves what such a stop does.
pub fn stop_law<M: Machine>()
    ensures { IsTrue M.tells → StopLaw M.time M.state }
{}

/// What each run keeps stays: where each view at the start of some run meets a test, and each run from there on keeps
/// it, each later view meets it.
pub fn kept_law()
    ensures { KeptLaw }
{}

/// A good entry stays: where a valid entry of an EFI system partition, without a boot counter, stands at a path in each
/// view at the start of some run, and no command from that run on is told to build over it, to unlink it, or to bless
/// it as bad or as indeterminate, and no `keep` removes it, one stands there in each later view. It is listed where the
/// two folders hold at most 4,096 entry files.
pub fn good_entry_law()
    ensures stays { GoodEntryLaw }
    ensures listed { ListedLaw }
{}

/// The payloads of entries stay, whichever of their names count: where each payload that an entry of an EFI system
/// partition names as its kernel or an initrd, and whose name counts, is there, with its digest for its name, in each
/// view at the start of some run, and no build from that run on has its output directly in the partition's folder of
/// payloads or in that of its entries of type 1, it is so in each later view. So what one entry names stays, whatever
/// other entries name. An installation, a cleanup and a `keep` keep it after each number of their actions.
pub fn payload_law()
    ensures stays { PayloadLaw }
    ensures installs { InstallKeepsLaw }
    ensures cleanups { CleanupKeepsLaw }
    ensures removals { RemovalKeepsLaw }
{}

/// Keeping the newest: at each moment since the start of a `keep` that isn't refused and doesn't only tell, on a machine
/// where boot sees one view, the menu is that at the start without a first part of the doomed entries, as many as are
/// acknowledged or one more. Each entry that is kept is in it, and once all is said or the run has come to its end no
/// other. No reply of it is a refusal, and it spares each entry that isn't doomed. One that only tells changes nothing.
pub fn newest_law()
    ensures newest { NewestLaw }
    ensures told { ToldLaw }
    ensures unrefused { UnrefusedLaw }
    ensures spares { KeepSparesLaw }
{}

/// No reply is empty, so from what is printed one can tell how many replies are whole.
pub fn reply_law()
    ensures { ReplyLaw }
{}

/// An installation, a cleanup and a `keep` are done whole, unless they are refused, which is their one action: no other of
/// their actions is refused on what boot sees, from whatever view they begin. A run of them ends at the first refused
/// action, which comes only on a machine that has changed between two looks; up to there it does on each view all of them.
pub fn expansion_law()
    ensures unrefused { ExpansionUnrefusedLaw }
    ensures whole { WholeExpansionLaw }
{}
