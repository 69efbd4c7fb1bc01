//! The machine on the real folder and the standard streams.
use crate::real::RealFolder;
use folder_machine::FolderMachine;
use std::fs::File;
use std::rt::Runtime;

/// The folder that the program starts in, as the root of all paths, and the standard streams.
pub type HostMachine<R, E> = FolderMachine<RealFolder<R>, E>;

/// The machine over a runtime, with `err` for what is printed on Err. No call has failed yet, and none that fails is told
/// of.
pub fn host_machine<R: Runtime<File = File> + AllocGlobal, E: Print + Drop>(
    rt: R,
    err: E,
) -> HostMachine<R, E> {
    FolderMachine::new(rt.alloc(), RealFolder::new(rt), err)
}
