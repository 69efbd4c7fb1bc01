//! All files that a machine has.
use crate::contents::content_text;
use crate::fault::StoryFault;
use crate::files::{bytes_at, bytes_of, file_text, names_in};
use crate::known::Known;
use crate::samples::{Sample, sample_of};
use boot_base::{BootPath, FilePath, ends_as_temp};
use memory_machine::MemMachine;
use std::alloc::{AllocError, Global};

/// The folders of boot entries, that of the boot loader's settings, and that of payloads.
pub(crate) const FOLDERS: [&str; 4] = [
    "efi/loader/entries",
    "efi/EFI/Linux",
    "efi/loader",
    "efi/boot_tools",
];

// The texts of files, and how many files there are with those that have none.
#[derive(Drop)]
struct Told {
    texts: Vec<String>,
    count: u64,
}

impl Told {
    fn add(&mut self, text: String) -> Result<(), StoryFault> {
        self.texts.push(text)?;
        self.count_one();
        Ok(())
    }

    fn count_one(&mut self) {
        self.count = self.count.saturating_add(1);
    }
}

// Adds the files directly in a folder, but temporary ones.
fn add_folder(
    alloc: Global,
    machine: &mut MemMachine,
    samples: &[Sample],
    folder: &BootPath,
    told: &mut Told,
) -> Result<(), StoryFault> {
    let names = names_in(alloc, machine, folder)?;
    for name in &names {
        if !ends_as_temp(name.as_str()) {
            told.add(file_text(alloc, machine, samples, folder, name.as_str())?)?;
        }
    }
    Ok(())
}

// Whether the file at a path lies directly in one of the folders.
fn is_in_folder(path: &str) -> bool {
    match path.rsplit_once('/') {
        Some((folder, _)) => FOLDERS.contains(&folder),
        None => false,
    }
}

// Adds a file with these bytes, unless it is the sample of its path.
fn add_content(
    alloc: Global,
    samples: &[Sample],
    path: &str,
    bytes: &[u8],
    told: &mut Told,
) -> Result<(), StoryFault> {
    match sample_of(samples, bytes) {
        Some(sample) if sample == path => told.count_one(),
        _ => {
            let content = content_text(alloc, samples, bytes)?;
            told.add(format!(in alloc; "/{path} {content}")?)?;
        }
    }
    Ok(())
}

// Adds the file at a path, or that it is gone.
fn add_file(
    alloc: Global,
    machine: &mut MemMachine,
    samples: &[Sample],
    path: &str,
    told: &mut Told,
) -> Result<(), StoryFault> {
    match bytes_of(alloc, machine, path)? {
        Some(bytes) => add_content(alloc, samples, path, bytes.as_slice(), told),
        None => Ok(told.texts.push(format!(in alloc; "/{path} is gone")?)?),
    }
}

// Adds the files elsewhere that the story knows of.
fn add_files(
    alloc: Global,
    machine: &mut MemMachine,
    known: &Known,
    told: &mut Told,
) -> Result<(), StoryFault> {
    for path in known.paths.iter() {
        if !is_in_folder(path.as_str()) {
            add_file(
                alloc,
                machine,
                known.samples.as_slice(),
                path.as_str(),
                told,
            )?;
        }
    }
    Ok(())
}

// The intent of a rename, or an empty text where it isn't there.
fn intent_text(
    alloc: Global,
    machine: &mut MemMachine,
    samples: &[Sample],
) -> Result<String, StoryFault> {
    let path = FilePath::intent(alloc)?;
    let Some(bytes) = bytes_at(alloc, machine, &path)? else {
        return Ok(String::new(alloc));
    };
    let content = content_text(alloc, samples, bytes.as_slice())?;
    Ok(format!(in alloc; ", with the intent {content}")?)
}

// Tells of all files but temporary ones, samples in their own place, and the intent.
fn tell_files(
    alloc: Global,
    machine: &mut MemMachine,
    known: &Known,
    told: &mut Told,
) -> Result<(), StoryFault> {
    for folder in FOLDERS {
        let folder = BootPath::read(alloc, folder)?;
        add_folder(alloc, machine, known.samples.as_slice(), &folder, told)?;
    }
    add_files(alloc, machine, known, told)
}

// The texts, and how many of the files have none, parted by `; `.
fn join_texts(alloc: Global, told: &mut Told, files: u64) -> Result<String, AllocError> {
    let more = files.saturating_sub(told.count);
    if more > 0 {
        told.texts.push(format!(in alloc; "{more} more")?)?;
    }
    if told.texts.is_empty() {
        return String::from_str(alloc, "none");
    }
    told.texts.as_slice().join(alloc, "; ")
}

/// All files but temporary ones and samples in their own place, and the intent of a rename.
pub(crate) fn left_text(
    alloc: Global,
    machine: &mut MemMachine,
    known: &Known,
) -> Result<String, StoryFault> {
    let intent = intent_text(alloc, machine, known.samples.as_slice())?;
    let mut told = Told {
        texts: Vec::new(alloc),
        count: u64::from(!intent.is_empty()),
    };
    tell_files(alloc, machine, known, &mut told)?;
    let files = join_texts(alloc, &mut told, machine.view_files())?;
    Ok(format!(in alloc; "{files}{intent}")?)
}
