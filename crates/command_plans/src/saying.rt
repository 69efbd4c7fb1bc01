//! What a command that may be refused comes to, as a plan.
ghost use Rattle.std.specs.Prelude.{◌≡◌, IfOk, List, Result, ℕ};
ghost use Rattle.boot_base.specs.declared.refusal.Refusal.{Refusal};
ghost use Rattle.boot_machine.specs.Prelude.{Counts, State, seen};
ghost use Rattle.command_plans.specs.Prelude.{CountsReadError, Says, read_error_counts, Answer, answer_of_read, answer_or_refusal, CountsRunError, Plans, PlansAs, PlansReadError};

use crate::outcome::{Outcome, RunError};
use crate::plan::{Change, Plan};
use crate::read_error::ReadError;
use crate::refusing::plan_to_refuse;
use boot_base::Bytes;
use std::alloc::Global;

/// The plan of the refusal, or why there is none.
pub fn plan_read_error(alloc: Global, read_error: ReadError) -> Result<Plan, RunError>
    ensures plans { IfOk result (PlansReadError read_error) }
    ensures idle { IfOk result (λ plan. plan.change ≡ Change.Nothing) }
    ensures counts { (old new : Counts) → read_error_counts read_error old new → CountsRunError result old new }
{
    match read_error {
        ReadError::Memory => Err(RunError::Memory),
        ReadError::Disk => Err(RunError::Disk),
        ReadError::Refused(why) => Ok(plan_to_refuse(alloc, why)?),
    }
}

/// The plan of a command that changes nothing: its text, or the refusal.
pub fn text_or_refusal(alloc: Global, text: Result<Vec<u8>, ReadError>) -> Result<Plan, RunError>
    ensures plans { IfOk result (λ plan. (s : State) (meant : Result (List ℕ) Refusal)
        → Says (λ text. text.items) text meant → Plans s plan (answer_of_read (seen s) meant)) }
    ensures idle { IfOk result (λ plan. plan.change ≡ Change.Nothing) }
    ensures counts { (old new : Counts) → CountsReadError text old new → CountsRunError result old new }
{
    match text {
        Ok(text) => Ok(Plan {
            change: Change::Nothing,
            outcome: Outcome::Done,
            text: Bytes::from(text),
        }),
        Err(read_error) => plan_read_error(alloc, read_error),
    }
}

/// The plan of a command: what was planned, or the refusal.
pub fn answer_or_refusal(alloc: Global, plan: Result<Plan, ReadError>) -> Result<Plan, RunError>
    ensures plans { IfOk result (λ made. (s : State) (meant : Result Answer Refusal)
        → PlansAs s plan meant → Plans s made (answer_or_refusal (seen s) meant)) }
    ensures counts { (old new : Counts) → CountsReadError plan old new → CountsRunError result old new }
{
    match plan {
        Ok(plan) => Ok(plan),
        Err(read_error) => plan_read_error(alloc, read_error),
    }
}
