//! The renderer for programs in C: a static library over a session, which hosts/c/sulleqti.h
//! declares. An engine keeps styles and works between calls, and has a reply that waits.
#![tactic(auto)]

mod engine;
mod exports;
mod parts;
mod status;
