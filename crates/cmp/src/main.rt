//! The program `cmp`: the words, the system's files and its output, handed to `cmp_cli::run`.
#![tactic(auto)]

use cmp_cli::run;
use cmp_outside::{RealFiles, RealOut};
use std::alloc::{AllocError, Global};
use std::env;
use std::io::ErrorKind;
use std::process::ExitCode;

/// The status that tells of want of memory.
const MEMORY: u8 = 6;

/// The words after the program's name. Where the system cannot give them as text they are one empty
/// word, which is no request.
fn words(rt: &HostRuntime) -> Result<Vec<String>, AllocError> {
    let mut words = Vec::new(rt.alloc());
    match env::args(rt) {
        Ok(args) => {
            for word in args.skip(1) {
                words.push(word)?;
            }
        }
        Err(error) => {
            if error.kind() == ErrorKind::OutOfMemory {
                return Err(AllocError);
            }
            words.push(String::new(rt.alloc()))?;
        }
    }
    Ok(words)
}

fn main(rt: HostRuntime) -> ExitCode {
    let Ok(words) = words(&rt) else {
        return ExitCode::from(MEMORY);
    };
    let mut files = RealFiles::make(&rt);
    let mut out = RealOut::make(&rt);
    ExitCode::from(run(rt.alloc(), &words, &mut files, &mut out))
}
