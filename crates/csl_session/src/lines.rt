//! A session over lines: a request a line, a reply a line.

use crate::session::Session;
use std::alloc::Global;
use std::io::{self, BufRead, ErrorKind, Read, Write};

/// The reply if memory runs out even for one that says so.
const OUT_OF_MEMORY: &str =
    "{\"error\":{\"at\":\"\",\"code\":\"out-of-memory\",\"message\":\"out of memory\"},\"id\":null}";

/// The reply to a line that is too long.
const TOO_LARGE: &str =
    "{\"error\":{\"at\":\"\",\"code\":\"too-large\",\"message\":\"the request is larger than is allowed\"},\"id\":null}";

/// Why a session over lines ended.
#[derive(Clone, Copy, Debug, PartialEq, Eq)]
pub enum Ending {
    /// The input has no more lines.
    Input,
    /// The input could not be read.
    Unreadable,
    /// The output refused a reply.
    Output,
}

/// The next line of an input.
enum Line {
    /// There is none.
    None,
    /// A line, without its end.
    Whole(Vec<u8>),
    /// A line that is too long. It was read to its end.
    TooLong,
    /// A line for which there was no memory. It was read to its end.
    OutOfMemory,
}

/// Reads the next line, of at most so many bytes.
fn next_line<R: BufRead>(alloc: Global, reader: &mut R, most: usize) -> io::Result<Line> {
    let mut line = Vec::new(alloc);
    let limit = (most as u64).saturating_add(1);
    match reader.by_ref().take(limit).read_until(b'\n', &mut line) {
        Ok(0) => return Ok(Line::None),
        Ok(_) => {}
        Err(error) if error.kind() == ErrorKind::OutOfMemory => {
            drop(line);
            reader.skip_until(b'\n')?;
            return Ok(Line::OutOfMemory);
        }
        Err(error) => return Err(error),
    }
    if line.last() == Some(&b'\n') {
        line.pop();
    } else if line.len() > most {
        drop(line);
        reader.skip_until(b'\n')?;
        return Ok(Line::TooLong);
    }
    Ok(Line::Whole(line))
}

/// Writes a reply as a line.
fn write_line<W: Write>(writer: &mut W, reply: &str) -> io::Result<()> {
    writer.write_all(reply.as_bytes())?;
    writer.write_all(b"\n")?;
    writer.flush()
}

/// Answers the lines of an input, each of at most so many bytes, until it ends: one reply a line,
/// in order, each written before the next line is read.
pub fn serve<R: BufRead, W: Write>(
    alloc: Global,
    session: &mut Session,
    reader: &mut R,
    writer: &mut W,
    most: usize,
) -> Ending {
    for _ in 0..u64::MAX {
        let Ok(line) = next_line(alloc, reader, most) else {
            return Ending::Unreadable;
        };
        let written = match line {
            Line::None => return Ending::Input,
            Line::Whole(line) => match session.limited_reply(alloc, line.as_slice()) {
                Ok(reply) => write_line(writer, reply.as_str()),
                Err(_) => write_line(writer, OUT_OF_MEMORY),
            },
            Line::TooLong => write_line(writer, TOO_LARGE),
            Line::OutOfMemory => write_line(writer, OUT_OF_MEMORY),
        };
        if written.is_err() {
            return Ending::Output;
        }
    }
    Ending::Input
}
