//! Refusals as they are printed, and as a plan.
ghost use Rattle.std.specs.Prelude.{◌≡◌, IfOk};
ghost use Rattle.boot_base.specs.Refusals.{line_of, number_of};
ghost use Rattle.boot_machine.specs.Prelude.{State, seen};
ghost use Rattle.command_plans.specs.Prelude.{refusal, Plans, PlansWordError};

use crate::outcome::Outcome;
use crate::plan::{Change, Plan, RefusalLine};
use crate::word_error::WordError;
use boot_base::{Bytes, Refusal};
use std::alloc::{AllocError, Global};

/// The whole line of a refusal.
pub fn refusal_line(alloc: Global, why: &Refusal) -> Result<Bytes, AllocError>
    ensures { IfOk result (λ line. line ≡ line_of why.now) }
{
    let line = why.line(alloc)?;
    Ok(Bytes::from(line.into_string().into_bytes()))
}

impl RefusalLine {
    /// What is printed of that refusal.
    pub fn of(alloc: Global, why: &Refusal) -> Result<RefusalLine, AllocError>
        ensures number { IfOk result (λ refusal. refusal.number ≡ number_of why.now) }
        ensures line { IfOk result (λ refusal. refusal.line ≡ line_of why.now) }
    {
        Ok(RefusalLine {
            number: why.number(),
            line: refusal_line(alloc, why)?,
        })
    }
}

/// The plan of a refusal: nothing is changed, and its line is the reply.
pub fn refusal_plan(alloc: Global, why: &Refusal) -> Result<Plan, AllocError>
    ensures plans { IfOk result (λ plan. (s : State) → Plans s plan (refusal (seen s) why.now)) }
    ensures idle { IfOk result (λ plan. plan.change ≡ Change.Nothing) }
{
    let text = refusal_line(alloc, why)?;
    Ok(Plan {
        change: Change::Nothing,
        outcome: Outcome::Refused {
            number: why.number(),
        },
        text,
    })
}

/// The plan of a refusal that nothing else is to be told of.
pub(crate) fn plan_to_refuse(alloc: Global, why: Refusal) -> Result<Plan, AllocError>
    ensures plans { IfOk result (λ plan. (s : State) → Plans s plan (refusal (seen s) why)) }
    ensures idle { IfOk result (λ plan. plan.change ≡ Change.Nothing) }
{
    let plan = refusal_plan(alloc, &why);
    drop(why);
    plan
}

/// The plan of the refusal of a command's words.
pub fn plan_word_error(alloc: Global, word_error: WordError) -> Result<Plan, AllocError>
    ensures plans { IfOk result (PlansWordError word_error) }
    ensures idle { IfOk result (λ plan. plan.change ≡ Change.Nothing) }
{
    match word_error {
        WordError::Memory => Err(AllocError),
        WordError::Refused(why) => plan_to_refuse(alloc, why),
    }
}
