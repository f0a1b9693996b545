//! The program `csl_serve`: it answers requests on standard input, one a line, by replies on
//! standard output, one a line (docs/HOSTS.md).
//!
//! Its status is 0 when the input ends, 2 for words that it does not know, 3 if there is no memory
//! to begin, 4 if standard output refuses a reply, and 5 if standard input cannot be read.
#![tactic(auto)]

use csl_session::{Ending, LONGEST_REQUEST, Session, SessionLimits, serve};
use std::env;
use std::io::{self, BufReader, ErrorKind};
use std::process::ExitCode;
use std::rt::Env;

/// The program's words, its name among them.
fn words(rt: &(impl Env + AllocGlobal)) -> io::Result<Vec<String>> {
    let words = env::args(rt)?;
    Ok(words.collect(rt.alloc())?)
}

/// The limits that the words ask for, or the status without them.
fn limits(words: io::Result<Vec<String>>) -> Result<SessionLimits, u8> {
    match words {
        Ok(words) => match words.as_slice() {
            [_name] => Ok(SessionLimits::of_strangers()),
            [_name, word] if word.as_str() == "--trusted" => Ok(SessionLimits::none()),
            _ => Err(2),
        },
        Err(error) if error.kind() == ErrorKind::OutOfMemory => Err(3),
        Err(_) => Err(2),
    }
}

/// Answers the lines of standard input, and returns the program's status.
fn status(rt: &(impl Env + Input + Print + AllocGlobal)) -> u8 {
    let limits = match limits(words(rt)) {
        Ok(limits) => limits,
        Err(status) => return status,
    };
    let alloc = rt.alloc();
    let Ok(mut reader) = BufReader::new(alloc, rt.reader()) else {
        return 3;
    };
    let mut session = Session::new(alloc, limits);
    let mut writer = io::writer(rt);
    match serve(
        alloc,
        &mut session,
        &mut reader,
        &mut writer,
        LONGEST_REQUEST,
    ) {
        Ending::Input => 0,
        Ending::Output => 4,
        Ending::Unreadable => 5,
    }
}

fn main(rt: HostRuntime) -> ExitCode {
    ExitCode::from(status(&rt))
}
