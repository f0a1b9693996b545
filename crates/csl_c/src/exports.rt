//! What C calls (hosts/c/sulleqti.h).
//! Definitions: specs/Exports.antt.

ghost use Rattle.std.specs.Prelude.{◌≡◌, None};
ghost use Rattle.csl_c.specs.Exports.{IsOpened, IsAnswered, IsGiven};

use crate::engine::Engine;
use crate::status::{CLOSED, NO_REPLY, OK, OUT_OF_MEMORY, TOO_SMALL};
use csl_session::{Conversation, PROTOCOL, SessionLimits, Taken};
use std::alloc::Global;

/// Opens an engine, with the limits of a session for strangers unless its requests are trusted.
/// What it has kept is lost. Returns `OK`, or `OUT_OF_MEMORY`: then it is closed.
#[unsafe(no_mangle)]
#[tactic(auto, using(crate::proofs::Calls::opened, crate::proofs::Calls::not_opened))]
pub extern "C" fn sulleqti_open(alloc: Global, engine: &mut Engine, is_trusted: bool) -> i32
    ensures { IsOpened engine.new.kept result }
{
    drop(engine.take(alloc));
    let limits = if is_trusted {
        SessionLimits::none()
    } else {
        SessionLimits::of_strangers()
    };
    match Box::new(alloc, Conversation::new(alloc, limits)) {
        Ok(kept) => {
            engine.put(kept);
            OK
        }
        Err(_) => OUT_OF_MEMORY,
    }
}

/// Answers a request, and has the reply wait, in the place of an earlier one. `length` becomes its
/// length in bytes, or 0 if none waits. Returns `OK`, `OUT_OF_MEMORY` or `CLOSED`.
#[unsafe(no_mangle)]
#[tactic(auto, using(crate::proofs::Calls::closed_answer, crate::proofs::Calls::no_answer))]
pub extern "C" fn sulleqti_answer(
    alloc: Global,
    engine: &mut Engine,
    request: &[u8],
    length: &mut usize,
) -> i32
    ensures { IsAnswered engine.old.kept engine.new.kept request.now length.new result }
{
    *length = 0;
    let Some(mut kept) = engine.take(alloc) else {
        return CLOSED;
    };
    let answered = kept.answer(alloc, request);
    engine.put(kept);
    match answered {
        Ok(bytes) => {
            *length = bytes;
            OK
        }
        Err(_) => OUT_OF_MEMORY,
    }
}

/// Writes the reply that waits to the front of a room, and returns `OK`. From then on none waits.
/// Else nothing changes, and it returns `TOO_SMALL`, `NO_REPLY` or `CLOSED`.
#[unsafe(no_mangle)]
#[tactic(auto, using(crate::proofs::Calls::closed_take, crate::proofs::Calls::open_take))]
pub extern "C" fn sulleqti_take(alloc: Global, engine: &mut Engine, room: &mut [u8]) -> i32
    ensures { IsGiven engine.old.kept engine.new.kept room.old room.new result }
{
    let Some(mut kept) = engine.take(alloc) else {
        return CLOSED;
    };
    let taken = kept.hand_over(room);
    engine.put(kept);
    match taken {
        Taken::Whole => OK,
        Taken::TooSmall => TOO_SMALL,
        Taken::NoReply => NO_REPLY,
    }
}

/// Closes an engine. What it has kept is lost.
#[unsafe(no_mangle)]
pub extern "C" fn sulleqti_close(alloc: Global, engine: &mut Engine)
    ensures { engine.new.kept ≡ None }
{
    drop(engine.take(alloc));
}

/// The protocol of requests and replies.
#[unsafe(no_mangle)]
pub extern "C" fn sulleqti_protocol() -> u64
    ensures { result ≡ 1 }
{
    PROTOCOL
}
