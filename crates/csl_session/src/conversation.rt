//! A session for a caller that asks first, and takes the reply when it has room for it.
//! Definitions: specs/Conversation.antt.

ghost use Rattle.std.specs.Prelude.{◌≡◌, None, Some, IfOk, OnErr};
ghost use Rattle.std.specs.Str.{IsUtf8};
ghost use Rattle.serde_json.specs.Data.{Data, null};
ghost use Rattle.serde_json.specs.Read.{read};
ghost use Rattle.csl_session.specs.Conversation.{Waits, IsTaken};
ghost use Rattle.csl_session.specs.Limits.{IsWithin};
ghost use Rattle.csl_session.specs.Replies.{id_of, IsReplyText};

use crate::limits::SessionLimits;
use crate::session::Session;
use csl_common::Memory;
use std::alloc::Global;

/// A session, and a reply that may wait.
#[derive(Drop)]
pub struct Conversation {
    pub session: Session,
    pub waiting: Option<String>,
}

/// Whether a reply was taken.
#[derive(Clone, Copy, Debug, PartialEq, Eq)]
pub enum Taken {
    /// It was.
    Whole,
    /// The room is smaller than the reply.
    TooSmall,
    /// No reply waits.
    NoReply,
}

impl Conversation {
    /// A session that keeps nothing yet, and no reply.
    pub fn new(alloc: Global, limits: SessionLimits) -> Conversation
        ensures limits { result.session.limits ≡ limits }
        ensures waiting { result.waiting ≡ None }
    {
        Conversation {
            session: Session::new(alloc, limits),
            waiting: None,
        }
    }

    /// Has the reply to a request wait, as [`Session::limited_reply`] gives it, in the place of an
    /// earlier one. Returns its length in bytes. If memory runs out, no reply waits.
    pub fn answer(&mut self, alloc: Global, request: &[u8]) -> Result<usize, Memory>
        ensures json { (d : Data) → IsWithin self.old.session.limits request.now
            → IsUtf8 request.now → read request.now ≡ Some d → IfOk result (λ n.
            Waits self.new.waiting n (IsReplyText (id_of d))) }
        ensures other { (IsWithin self.old.session.limits request.now → IsUtf8 request.now
            → read request.now ≡ None) → IfOk result (λ n.
            Waits self.new.waiting n (IsReplyText null)) }
        ensures err { OnErr result (self.new.waiting ≡ None) }
    {
        self.waiting = None;
        let reply = self.session.limited_reply(alloc, request)?;
        let length = reply.len();
        self.waiting = Some(reply);
        Ok(length)
    }

    /// Writes the reply that waits to the front of a room. From then on none waits. If none waits
    /// before, or the room is too small, nothing changes.
    pub fn hand_over(&mut self, room: &mut [u8]) -> Taken
        ensures session { self.new.session ≡ self.old.session }
        ensures taken { IsTaken self.old.waiting self.new.waiting room.old room.new result }
    {
        let Some(reply) = &self.waiting else {
            return Taken::NoReply;
        };
        let bytes = reply.as_bytes();
        if room.len() < bytes.len() {
            return Taken::TooSmall;
        }
        let (front, _) = room.split_at_mut(bytes.len());
        front.copy_from_slice(bytes);
        self.waiting = None;
        Taken::Whole
    }
}
