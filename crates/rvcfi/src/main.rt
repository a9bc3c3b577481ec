//! The program: the tool over the command line, the host's files and standard output.
#![tactic(auto)]

use cfi_tool::{NO_MEMORY, rvcfi};
use std::alloc::AllocError;
use std::io::ErrorKind;
use std::process::ExitCode;
use std::rt::Env;
use std::{env, io};
use tool_io::{HostFiles, HostSink};

/// The words of the command line, the program's name first. Where one is not UTF-8 there are none,
/// and so they are not taken.
fn words<R: Env + AllocGlobal>(rt: &R) -> Result<Vec<String>, AllocError> {
    let mut words = Vec::new(rt.alloc());
    match env::args(rt) {
        Ok(args) => {
            for word in args {
                words.push(word)?;
            }
        }
        Err(error) => {
            if error.kind() == ErrorKind::OutOfMemory {
                return Err(AllocError);
            }
        }
    }
    Ok(words)
}

fn main(rt: HostRuntime) -> ExitCode {
    let Ok(words) = words(&rt) else {
        return ExitCode::from(NO_MEMORY);
    };
    let mut files = HostFiles::new(rt.alloc(), &rt);
    let mut out = HostSink::new(io::writer(&rt));
    ExitCode::from(rvcfi(rt.alloc(), &words, &mut files, &mut out))
}
