//! The program `csl_cite` over its host's runtime: its arguments, its streams and its status.

use crate::run;
use crate::streams::{Output, Stderr};
use csl_common::TrackingWriter;
use std::env;
use std::io::{self, ErrorKind};
use std::rt::Env;

/// The arguments after the program's name.
///
/// # Errors
/// `OutOfMemory`: memory ran out. Any other kind: an argument is not UTF-8.
pub fn arguments(rt: &(impl Env + AllocGlobal)) -> io::Result<Vec<String>> {
    let mut words = env::args(rt)?;
    let _name = words.next();
    Ok(words.collect(rt.alloc())?)
}

/// Prints why there are no arguments, and returns the status: 3 if memory ran out, 2 otherwise, but
/// 4 if standard error refuses the line.
fn without_arguments(rt: &impl Eprint, error: &io::Error) -> u8 {
    let (line, status) = if error.kind() == ErrorKind::OutOfMemory {
        ("out of memory", 3)
    } else {
        ("not text", 2)
    };
    match rt.eprintln(line) {
        Ok(()) => status,
        Err(_) => 4,
    }
}

/// Runs the command in the arguments, over the standard streams, and returns the program's status,
/// which [`run::run_into`] lists. If there are no arguments to read, the reason is printed, and the
/// status is 2 or 3, but 4 if standard error refuses the line.
pub fn status(rt: &(impl Print + Eprint + AllocGlobal), arguments: io::Result<Vec<String>>) -> u8 {
    match arguments {
        Ok(words) => run::run_into(
            rt.alloc(),
            words.as_slice(),
            &mut TrackingWriter::new(&mut Output { rt }),
            &mut TrackingWriter::new(&mut Stderr { rt }),
        ),
        Err(error) => without_arguments(rt, &error),
    }
}
