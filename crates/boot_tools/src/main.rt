//! `boot_tools`: builds unified kernel images, predicts their values of PCR 11 before they are booted, and
//! changes a boot folder, as `ukify`, `bootctl`, `systemd-measure` and `systemd-bless-boot` do.
//!
//! `run` is the whole program over any machine, and carries the theorem; `main` calls it on the folder
//! that the program starts in and its standard streams. If the environment asks for a log, it says before that which
//! build this is, and behind a list which files are no entries.
#![tactic(auto)]

mod build;
mod passed;
mod tries;

use boot_run::{Ended, run};
use build::report_build;
use host_machine::{host_machine, reports_are_wanted};
use passed::report_passed_over;
use std::io::ErrorKind;
use std::process::ExitCode;
use std::rt::Env;
use std::{env, io};
use tries::tries_of;

fn main(rt: HostRuntime) -> ExitCode {
    let are_wanted = reports_are_wanted(&rt);
    if are_wanted {
        report_build(&rt, &rt.stderr());
    }
    let Ok(words) = given_words(&rt) else {
        return ExitCode::from(Ended::Memory.status());
    };
    let mut status = Ended::Disk.status();
    for _ in 0..tries_of(rt.alloc(), &words) {
        let mut machine = host_machine(rt, rt.stderr()).with_reports(are_wanted);
        status = run(rt.alloc(), &words, &mut machine);
        if status != Ended::Disk.status() || !machine.has_met_other_run() {
            break;
        }
    }
    if are_wanted && status <= 1 {
        report_passed_over(rt, &words);
    }
    ExitCode::from(status)
}

// The words behind the program's name. If one of them isn't UTF-8 they are a single word that is no
// command.
fn given_words<R: Env + AllocGlobal>(rt: &R) -> io::Result<Vec<String>> {
    match env::args(rt) {
        Ok(words) => Ok(words.skip(1).collect(rt.alloc())?),
        Err(error) if error.kind() == ErrorKind::InvalidData => unreadable_words(rt),
        Err(error) => Err(error),
    }
}

fn unreadable_words<R: AllocGlobal>(rt: &R) -> io::Result<Vec<String>> {
    let mut words = Vec::new(rt.alloc());
    words.push(String::from_str(rt.alloc(), "\u{fffd}")?)?;
    Ok(words)
}
