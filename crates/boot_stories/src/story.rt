//! The machine of a story.
use crate::fault::StoryFault;
use crate::files::{
    CALLS_OF_LEAVE, CALLS_OF_PUT, CALLS_OF_PUT_INTENT, bytes_at, bytes_of, leave, names_in, put,
    put_intent,
};
use crate::known::Known;
use crate::left::FOLDERS;
use crate::replies::answer;
use crate::samples::samples;
use boot_base::{BootPath, FilePath, TempPath, ends_as_temp};
use boot_machine::{Machine, Printed};
use memory_machine::{FailMode, MemMachine, ReadSeen};
use std::alloc::{AllocError, Global};
use std::mem;

#[derive(Drop)]
pub(crate) struct Story {
    pub(crate) machine: MemMachine,
    pub(crate) known: Known,
    /// How many of the reads were made before the last run.
    read: usize,
    /// The standard input of the next run.
    pub(crate) input: Vec<u8>,
    /// The words of the run that is looked at.
    pub(crate) looked_at: String,
    /// Whether one call of that run fails. Otherwise it is stopped.
    pub(crate) is_faulty: bool,
}

fn new_machine(alloc: Global) -> Result<MemMachine, AllocError> {
    MemMachine::new(alloc, Vec::new(alloc))
}

// Adds the paths of a folder's files, without those of temporary files.
fn add_folder(
    alloc: Global,
    machine: &mut MemMachine,
    folder: &BootPath,
    known: &mut Known,
) -> Result<(), StoryFault> {
    let names = names_in(alloc, machine, folder)?;
    for name in &names {
        if !ends_as_temp(name.as_str()) {
            let path = BootPath::under(alloc, folder, name.as_str())?;
            known.add(alloc, path.as_str())?;
        }
    }
    Ok(())
}

impl Story {
    /// A story without a file.
    pub(crate) fn new(alloc: Global) -> Result<Story, AllocError> {
        Ok(Story {
            machine: new_machine(alloc)?,
            known: Known {
                samples: Vec::new(alloc),
                paths: Vec::new(alloc),
            },
            read: 0,
            input: Vec::new(alloc),
            looked_at: String::new(alloc),
            is_faulty: false,
        })
    }

    /// A story with the samples of that set.
    pub(crate) fn with_samples(alloc: Global, set: &str) -> Result<Story, StoryFault> {
        let mut story = Story::new(alloc)?;
        let files = samples(alloc, set)?;
        for (path, sample) in &files {
            story.write(alloc, path, sample.bytes())?;
        }
        story.known.set_samples(files);
        Ok(story)
    }

    pub(crate) fn write(
        &mut self,
        alloc: Global,
        path: &str,
        bytes: &[u8],
    ) -> Result<(), StoryFault> {
        put(alloc, &mut self.machine, path, bytes)?;
        self.known.add(alloc, path)?;
        Ok(())
    }

    /// Runs the program: what it prints, and its status.
    pub(crate) fn run(&mut self, alloc: Global, words: &Vec<String>) -> (&[Printed], u8) {
        let input = mem::replace(&mut self.input, Vec::new(alloc));
        self.machine.set_input(input);
        self.read = self.machine.reads().len();
        answer(alloc, words, &mut self.machine)
    }

    /// The reads of the last run that gave bytes.
    pub(crate) fn new_reads(&self) -> &[ReadSeen] {
        let reads = self.machine.reads();
        &reads[self.read.min(reads.len())..]
    }

    /// From now on this is the story's machine.
    pub(crate) fn go_on_with(&mut self, machine: MemMachine) {
        self.read = machine.reads().len();
        self.machine = machine;
    }

    // Finds the files that the runs have written.
    fn find_paths(&mut self, alloc: Global) -> Result<(), StoryFault> {
        for folder in FOLDERS {
            let folder = BootPath::read(alloc, folder)?;
            add_folder(alloc, &mut self.machine, &folder, &mut self.known)?;
        }
        Ok(())
    }

    // Copies the files to another machine, and says how many calls of it that takes.
    fn copy_files(&mut self, alloc: Global, copy: &mut MemMachine) -> Result<u64, StoryFault> {
        let mut calls = 0u64;
        for text in self.known.paths.iter() {
            if let Some(bytes) = bytes_of(alloc, &mut self.machine, text.as_str())? {
                put(alloc, copy, text.as_str(), bytes.as_slice())?;
                calls = calls.saturating_add(CALLS_OF_PUT);
            }
        }
        Ok(calls)
    }

    // Copies the intent, if one is there, to another machine, and says how many calls of it that takes.
    fn copy_intent(&mut self, alloc: Global, copy: &mut MemMachine) -> Result<u64, StoryFault> {
        let path = FilePath::intent(alloc)?;
        let Some(bytes) = bytes_at(alloc, &mut self.machine, &path)? else {
            return Ok(0);
        };
        put_intent(alloc, copy, bytes.as_slice())?;
        Ok(CALLS_OF_PUT_INTENT)
    }

    // Copies the temporary files of a folder, by their names alone, to another machine, and says how many calls of it
    // that takes.
    fn copy_leftovers(
        &mut self,
        alloc: Global,
        folder: &BootPath,
        copy: &mut MemMachine,
    ) -> Result<u64, StoryFault> {
        let names = self.machine.names(alloc, folder)?;
        let mut calls = 0u64;
        for name in &names {
            if let Some(path) = TempPath::leftover(alloc, folder, name)? {
                leave(copy, &path)?;
                calls = calls.saturating_add(CALLS_OF_LEAVE);
            }
        }
        Ok(calls)
    }

    // Copies all files to another machine, and says how many calls of it that takes.
    fn copy_to(&mut self, alloc: Global, copy: &mut MemMachine) -> Result<u64, StoryFault> {
        let mut calls = self.copy_files(alloc, copy)?;
        for folder in FOLDERS {
            let folder = BootPath::read(alloc, folder)?;
            calls = calls.saturating_add(self.copy_leftovers(alloc, &folder, copy)?);
        }
        Ok(calls.saturating_add(self.copy_intent(alloc, copy)?))
    }

    /// A new machine with the same files and the same input, and how many calls it has answered.
    pub(crate) fn copy_machine(&mut self, alloc: Global) -> Result<(MemMachine, u64), StoryFault> {
        self.find_paths(alloc)?;
        let mut copy = new_machine(alloc)?;
        let calls = self.copy_to(alloc, &mut copy)?;
        copy.set_input(self.input.as_slice().to_vec(alloc)?);
        Ok((copy, calls))
    }

    /// Goes on with a new machine with the same files, of which the call of that number fails.
    pub(crate) fn fail_at(
        &mut self,
        alloc: Global,
        call: u64,
        mode: FailMode,
    ) -> Result<(), StoryFault> {
        let (mut copy, calls) = self.copy_machine(alloc)?;
        copy.fail_at(calls.saturating_add(call), mode)?;
        self.go_on_with(copy);
        Ok(())
    }
}
