//! Counts that words give.
ghost use Rattle.std.specs.Prelude.{◌≤◌, IfOk};
ghost use Rattle.command_plans.specs.Prelude.{Means};
ghost use Rattle.entry_commands.specs.Counts.{count_in, counter_limit};

use boot_base::{Refusal, Text};
use command_plans::WordError;
use menu_order::read_count;
use std::alloc::Global;

/// The count that a word writes, or the refusal of the word.
pub(crate) fn count_in(alloc: Global, word: &str) -> Result<u32, WordError>
    ensures means { Means (λ count. count) result (count_in word.now) }
    ensures limit { IfOk result (λ count. count ≤ counter_limit) }
{
    match read_count(word) {
        Some(count) if count > 0 => Ok(count),
        _ => {
            let text = Text::of(alloc, word)?;
            Err(WordError::Refused(Refusal::BadNumber { text }))
        }
    }
}
