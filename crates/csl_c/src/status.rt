//! How a call ends, by the numbers of hosts/c/sulleqti.h.

/// The call has done what it is for.
pub const OK: i32 = 0;
/// Memory ran out.
pub const OUT_OF_MEMORY: i32 = 1;
/// The room is smaller than the reply.
pub const TOO_SMALL: i32 = 2;
/// No reply waits.
pub const NO_REPLY: i32 = 3;
/// The engine is closed.
pub const CLOSED: i32 = 4;
