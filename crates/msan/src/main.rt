//! `msan`: MemorySanitizer for LLVM IR. The words, the files and the standard streams of this process are
//! handed to the top call, whose status is the process's.
#![tactic(auto)]

use ms_bits::Text;
use ms_io::{RealFiles, RealSink};
use ms_top::Status;
use std::process::ExitCode;
use std::rt::Env;
use std::{env, io};

/// The words after the program's name.
fn words_of<R: Env + AllocGlobal>(rt: &R) -> io::Result<Vec<Text>> {
    let mut args = env::args(rt)?;
    let _name = args.next();
    let mut words = Vec::new(rt.alloc());
    for arg in args {
        words.push(Text::from_string(arg))?;
    }
    Ok(words)
}

fn main(rt: HostRuntime) -> ExitCode {
    let words = match words_of(&rt) {
        Ok(words) => words,
        Err(error) => {
            let status = match error.kind() {
                io::ErrorKind::OutOfMemory => Status::NoMemory,
                _ => Status::NoWords,
            };
            return ExitCode::from(status as u8);
        }
    };
    let mut files = RealFiles::new(&rt);
    let mut out = RealSink::new(rt.stdout());
    let mut err = RealSink::new(rt.stderr());
    let status = ms_top::msan(&rt, rt.alloc(), &words, &mut files, &mut out, &mut err);
    ExitCode::from(status)
}
