//! `demo`: commands that are drawn by a seed, over a machine in memory, and what came of them.
ghost use Rattle.std.specs.Prelude.{◌≡◌, ◌≤◌, string_bytes, IfOk, Some, false};
ghost use Rattle.boot_base.specs.Paths.{path_of};
ghost use Rattle.boot_machine.specs.Prelude.{Counts, seen, view};
ghost use Rattle.command_plans.specs.Prelude.{CountsReadError, Means, Says};
ghost use Rattle.memory_machine.specs.Memory.{mem_state};
ghost use Rattle.boot_commands.specs.DemoImages.{demo_image};
ghost use Rattle.boot_commands.specs.Demonstration.{demo_esp, demo_files, demo_result, demo_start, demo_text, demo_turns, count_lines, end_lines, is_long_number, list_digest, long_number, number_up_to, run_line};
ghost use Rattle.boot_commands.specs.DemoRuns.{IsReady, demo_state, reply_answer};
ghost use Rattle.boot_commands.specs.Replies.{one_reply};
ghost use Rattle.tool_words.specs.declared.command.One.TheVariants.{List as ListCommand};

use crate::demo_images::demo_image;
use crate::demo_turns::{Demo, ESP, Reply, reply_of};
use crate::draws::Draws;
use boot_base::{BootPath, Refusal, Text};
use command_plans::{ReadError, WordError};
use memory_machine::{MemFile, MemMachine};
use menu_order::has_digits_alone;
use pcr_values::{Bank, Digest};
use std::alloc::{AllocError, Global};
use tool_words::One;

/// The most commands.
const COUNT_LIMIT: u64 = 10_000;

fn is_long_number(word: &str) -> bool
    ensures { result ≡ is_long_number word.now }
{
    !word.is_empty() && word.len() <= 20 && has_digits_alone(word)
}

// The number that a word writes with 1 to 20 digits.
fn long_number(word: &str) -> Option<u64>
    ensures { result ≡ long_number word.now }
{
    if !is_long_number(word) {
        return None;
    }
    match word.parse() {
        Ok(number) => Some(number),
        Err(_) => None,
    }
}

fn bad_number(alloc: Global, word: &str) -> Result<WordError, AllocError>
    ensures { IfOk result (λ word_error. word_error ≡ WordError.Refused (Refusal.BadNumber word.now)) }
{
    let text = Text::of(alloc, word)?;
    Ok(WordError::Refused(Refusal::BadNumber { text }))
}

// The number that a word writes with 1 to 20 digits, up to a limit. Any other word is refused.
fn number_up_to(alloc: Global, limit: u64, word: &str) -> Result<u64, WordError>
    ensures means { Means (λ number. number) result (number_up_to limit word.now) }
    ensures limit { IfOk result (λ number. number ≤ limit) }
{
    match long_number(word) {
        Some(number) if number <= limit => Ok(number),
        Some(_) | None => Err(bad_number(alloc, word)?),
    }
}

fn demo_file(alloc: Global, name: &str, digit: u64) -> Result<MemFile, AllocError>
    ensures path { IfOk result (λ file. path_of name.now ≡ Some file.path) }
    ensures bytes { IfOk result (λ file. file.bytes.items ≡ demo_image digit) }
{
    let Ok(path) = BootPath::read(alloc, name) else {
        return Err(AllocError);
    };
    let bytes = demo_image(alloc, digit)?;
    Ok(MemFile {
        path: path.into_file(),
        bytes,
    })
}

// A machine with the four images.
fn demo_machine(alloc: Global) -> Result<MemMachine, AllocError>
    ensures files { IfOk result (λ machine. seen (mem_state machine) ≡ view demo_files) }
    ensures ready { IfOk result (λ machine. IsReady (mem_state machine)) }
{
    let first = demo_file(alloc, "u0.efi", 0)?;
    let second = demo_file(alloc, "u1.efi", 1)?;
    let third = demo_file(alloc, "u2.efi", 2)?;
    let fourth = demo_file(alloc, "u3.efi", 3)?;
    MemMachine::new(alloc, vec![in alloc; first, second, third, fourth]?)
}

fn start(alloc: Global, seed: u64) -> Result<Demo, AllocError>
    ensures { IfOk result (λ demo. demo_state demo (view demo_files) ≡ demo_start seed) }
{
    Ok(Demo {
        draws: Draws { number: seed },
        entry: Text::of(alloc, "/EFI/Linux/none+1.efi")?,
        done: 0,
        refused: 0,
    })
}

// What `bootctl list` comes to.
fn listing(alloc: Global, machine: &mut MemMachine) -> Result<Reply, AllocError>
    requires ready { IsReady (mem_state machine.old) }
    ensures { IfOk result (λ reply.
        reply_answer reply (seen (mem_state machine.new))
        ≡ one_reply (seen (mem_state machine.old)) (ListCommand demo_esp false)) }
{
    let esp = Text::of(alloc, ESP)?;
    let command = One::List { esp, json: false };
    let reply = reply_of(alloc, &command, machine);
    drop(command);
    reply
}

// The SHA-256 of what `bootctl list` prints on Out, in lower-case hex.
fn list_digest(alloc: Global, machine: &mut MemMachine) -> Result<String, AllocError>
    requires ready { IsReady (mem_state machine.old) }
    ensures { IfOk result (λ text. string_bytes text ≡ list_digest (seen (mem_state machine.old))) }
{
    let reply = listing(alloc, machine)?;
    let digest = Digest::of(Bank::Sha256, reply.on_out());
    let text = hex::encode(alloc, digest.bytes())?;
    Ok(text)
}

fn run_line(alloc: Global, seed: u64, count: u64) -> Result<Vec<u8>, AllocError>
    ensures { IfOk result (λ text. text.items ≡ run_line seed count) }
{
    let text = format!(in alloc; "demo {seed} {count}\n")?;
    Ok(text.into_bytes())
}

fn count_lines(alloc: Global, done: u64, refused: u64) -> Result<Vec<u8>, AllocError>
    ensures { IfOk result (λ text. text.items ≡ count_lines done refused) }
{
    let text = format!(in alloc; "ok {done}\nrefused {refused}\n")?;
    Ok(text.into_bytes())
}

fn end_lines(alloc: Global, files: u64, list: &str) -> Result<Vec<u8>, AllocError>
    ensures { IfOk result (λ text. text.items ≡ end_lines files list.now) }
{
    let text = format!(in alloc; "files {files}\nlist {list}\n")?;
    Ok(text.into_bytes())
}

// The five lines of a demonstration that has come so far.
fn lines(
    alloc: Global,
    seed: u64,
    count: u64,
    demo: &Demo,
    machine: &mut MemMachine,
) -> Result<Vec<u8>, AllocError>
    requires ready { IsReady (mem_state machine.old) }
    ensures { IfOk result (λ text.
        text.items ≡ demo_text seed count (demo_state demo.now (seen (mem_state machine.old)))) }
{
    let files = machine.view_files();
    let list = list_digest(alloc, machine)?;
    let counts = count_lines(alloc, demo.done, demo.refused)?;
    let end = end_lines(alloc, files, list.as_str())?;
    let mut text = run_line(alloc, seed, count)?;
    text.extend_from_slice(counts.as_slice())?;
    text.extend_from_slice(end.as_slice())?;
    Ok(text)
}

// So many commands that the seed draws, and what came of them.
fn demonstrate(alloc: Global, seed: u64, count: u64) -> Result<Vec<u8>, AllocError>
    requires { count ≤ 10000 }
    ensures { IfOk result (λ text. text.items ≡ demo_text seed count (demo_turns count (demo_start seed))) }
{
    let mut machine = demo_machine(alloc)?;
    let mut demo = start(alloc, seed)?;
    for _ in 0..count {
        demo.turn(alloc, &mut machine)?;
    }
    let text = lines(alloc, seed, count, &demo, &mut machine)?;
    Ok(text)
}

/// What a demonstration tells, which reads and changes nothing of the machine that is told of it: its five lines, or the
/// refusal of a word.
pub(crate) fn demo_result(alloc: Global, seed: &str, count: &str) -> Result<Vec<u8>, ReadError>
    ensures says { Says (λ text. text.items) result (demo_result seed.now count.now) }
    ensures counts { (counts : Counts) → CountsReadError result counts counts }
{
    let seed = number_up_to(alloc, u64::MAX, seed)?;
    let count = number_up_to(alloc, COUNT_LIMIT, count)?;
    Ok(demonstrate(alloc, seed, count)?)
}
