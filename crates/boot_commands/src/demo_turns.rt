//! The turns of a demonstration: drawn commands over a machine in memory.
ghost use Rattle.std.specs.Prelude.{◌≡◌, ◌<◌, ◌^◌, ◌++◌, map, string_bytes, IfOk, OnOk, codes};
ghost use Rattle.boot_machine.specs.Prelude.{Files, seen};
ghost use Rattle.memory_machine.specs.Memory.{mem_state};
ghost use Rattle.boot_commands.specs.Demonstration.{after_command, demo_esp, demo_name, demo_turn, drawn_command, drawn_install, listed_on_out, next_command, path_told, run_drawn, third_number};
ghost use Rattle.boot_commands.specs.DemoRuns.{IsReady, demo_state, reply_answer};
ghost use Rattle.boot_commands.specs.Replies.{one_reply};
ghost use Rattle.tool_words.specs.declared.command.One.TheVariants.{Bless as BlessCommand, Unlink as UnlinkCommand};
ghost use Rattle.tool_words.specs.declared.command.BlessWord.TheVariants.{Mark};

use crate::draws::Draws;
use crate::ones::run_one;
use boot_base::Text;
use boot_machine::Printed;
use command_plans::Outcome;
use memory_machine::MemMachine;
use menu_order::BlessVerb;
use std::alloc::{AllocError, Global};
use tool_words::{BlessWord, One};

/// The ESP of the commands.
pub const ESP: &str = "efi";

/// How far a demonstration has come.
#[derive(Debug, Drop)]
pub struct Demo {
    pub draws: Draws,
    /// The path that is blessed.
    pub entry: Text,
    /// How many commands were done.
    pub done: u64,
    /// How many were refused.
    pub refused: u64,
}

/// What a command comes to.
#[derive(Drop)]
pub struct Reply {
    pub outcome: Outcome,
    pub text: Vec<u8>,
}

impl Reply {
    /// What of it is printed on Out.
    pub fn on_out(&self) -> &[u8]
        ensures { (files : Files) → result.now ≡ listed_on_out (reply_answer self.now files) }
    {
        match self.outcome {
            Outcome::Done => self.text.as_slice(),
            Outcome::Refused { .. } => &[],
        }
    }
}

fn name_of(alloc: Global, digit: u64) -> Result<String, AllocError>
    ensures { IfOk result (λ name. string_bytes name ≡ demo_name digit) }
{
    format!(in alloc; "demo-{digit}")
}

fn install(alloc: Global, image: u64, name: u64) -> Result<One, AllocError>
    ensures { IfOk result (λ command. command ≡ drawn_install image name) }
{
    Ok(One::Install {
        file: Text::from(format!(in alloc; "u{image}.efi")?),
        name: Text::from(name_of(alloc, name)?),
        tries: Some(Text::of(alloc, "3")?),
        esp: Text::of(alloc, ESP)?,
    })
}

fn bless(alloc: Global, verb: BlessVerb, entry: &Text) -> Result<One, AllocError>
    ensures { IfOk result (λ command. command ≡ BlessCommand (Mark verb) entry.now demo_esp) }
{
    Ok(One::Bless {
        verb: BlessWord::Mark(verb),
        path: Text::of(alloc, entry.as_str())?,
        esp: Text::of(alloc, ESP)?,
    })
}

fn unlink(alloc: Global, name: u64) -> Result<One, AllocError>
    ensures { IfOk result (λ command. command ≡ UnlinkCommand (demo_name name ++ codes ".efi") demo_esp) }
{
    let name = name_of(alloc, name)?;
    Ok(One::Unlink {
        name: Text::from(format!(in alloc; "{name}.efi")?),
        esp: Text::of(alloc, ESP)?,
    })
}

// The command that a draw below 8 stands for, with draws below 4 for an image and a name.
fn drawn_command(
    alloc: Global,
    kind: u64,
    image: u64,
    name: u64,
    entry: &Text,
) -> Result<One, AllocError>
    ensures command { IfOk result (λ command. command ≡ drawn_command kind image name entry.now) }
{
    match kind {
        0 | 1 | 2 => install(alloc, image, name),
        3 | 4 => Ok(One::Boot {
            esp: Text::of(alloc, ESP)?,
        }),
        5 => bless(alloc, BlessVerb::Good, entry),
        6 => bless(alloc, BlessVerb::Bad, entry),
        _ => unlink(alloc, name),
    }
}

// The bytes that were printed.
fn bytes_of(alloc: Global, printed: &[Printed]) -> Result<Vec<u8>, AllocError>
    ensures { IfOk result (λ bytes. bytes.items ≡ map (λ p. p.byte) printed.now) }
{
    let mut bytes = Vec::with_capacity(alloc, printed.len())?;
    for one in printed {
        bytes.push(one.byte)?;
    }
    Ok(bytes)
}

/// Runs one command, whose reply stays on the machine too. A machine that is told to fail nowhere fails for want of
/// memory alone.
pub fn reply_of(alloc: Global, command: &One, machine: &mut MemMachine) -> Result<Reply, AllocError>
    requires ready { IsReady (mem_state machine.old) }
    ensures reply { IfOk result (λ reply.
        reply_answer reply (seen (mem_state machine.new)) ≡ one_reply (seen (mem_state machine.old)) command.now) }
    ensures ready { OnOk result (IsReady (mem_state machine.new)) }
{
    let before = machine.printed_bytes().len();
    let Ok(outcome) = run_one(alloc, command, machine) else {
        return Err(AllocError);
    };
    let text = bytes_of(alloc, &machine.printed_bytes()[before..])?;
    Ok(Reply { outcome, text })
}

// The path in the reply of a boot, without its first folder.
fn path_told(alloc: Global, text: &[u8]) -> Result<Text, AllocError>
    ensures { IfOk result (λ path. path ≡ path_told text.now) }
{
    let line = &text[..text.len().saturating_sub(1)];
    let start = b"booted /efi".len().min(line.len());
    let path = line[start..].to_vec(alloc)?;
    match String::from_utf8(path) {
        Ok(path) => Ok(Text::from(path)),
        Err(_) => Err(AllocError),
    }
}

impl Demo {
    // Counts a command by its reply, and takes the path of a boot from it.
    fn count(&mut self, alloc: Global, command: &One, reply: &Reply) -> Result<(), AllocError>
        requires done { self.old.done < 2 ^ 63 }
        requires refused { self.old.refused < 2 ^ 63 }
        ensures { OnOk result ((before after : Files) → demo_state self.new after
            ≡ after_command (demo_state self.old before) self.old.draws.number command.now
            (reply_answer reply.now after)) }
    {
        match reply.outcome {
            Outcome::Refused { .. } => self.refused += 1,
            Outcome::Done => {
                self.done += 1;
                if let One::Boot { .. } = command {
                    self.entry = path_told(alloc, reply.text.as_slice())?;
                }
            }
        }
        Ok(())
    }

    // Draws a command.
    fn draw(&mut self, alloc: Global) -> Result<One, AllocError>
        ensures number { OnOk result (self.new.draws.number ≡ third_number self.old.draws.number) }
        ensures same { OnOk result ((self.new.entry ≡ self.old.entry)
            × (self.new.done ≡ self.old.done) × (self.new.refused ≡ self.old.refused)) }
        ensures command { IfOk result (λ command. command ≡ next_command self.old.draws.number self.old.entry) }
    {
        let kind = self.draws.below(8);
        let image = self.draws.below(4);
        let name = self.draws.below(4);
        drawn_command(alloc, kind, image, name, &self.entry)
    }

    // Runs a command, and counts it.
    fn run(
        &mut self,
        alloc: Global,
        command: &One,
        machine: &mut MemMachine,
    ) -> Result<(), AllocError>
        requires done { self.old.done < 2 ^ 63 }
        requires refused { self.old.refused < 2 ^ 63 }
        requires ready { IsReady (mem_state machine.old) }
        ensures run { OnOk result (demo_state self.new (seen (mem_state machine.new))
            ≡ run_drawn (demo_state self.old (seen (mem_state machine.old))) self.old.draws.number command.now) }
        ensures ready { OnOk result (IsReady (mem_state machine.new)) }
    {
        let reply = reply_of(alloc, command, machine)?;
        self.count(alloc, command, &reply)?;
        Ok(())
    }

    /// One turn: three draws, and the command that they stand for.
    pub fn turn(&mut self, alloc: Global, machine: &mut MemMachine) -> Result<(), AllocError>
        requires done { self.old.done < 2 ^ 63 }
        requires refused { self.old.refused < 2 ^ 63 }
        requires ready { IsReady (mem_state machine.old) }
        ensures turn { OnOk result (demo_state self.new (seen (mem_state machine.new))
            ≡ demo_turn (demo_state self.old (seen (mem_state machine.old)))) }
        ensures ready { OnOk result (IsReady (mem_state machine.new)) }
    {
        let command = self.draw(alloc)?;
        let result = self.run(alloc, &command, machine);
        drop(command);
        result
    }
}
