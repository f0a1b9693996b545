//! Addresses that a web page may link to.

ghost use Rattle.std.specs.Prelude.{IfOk, IsTrue, ◌↔◌};
ghost use Rattle.lit_model.specs.WebAddress.{BeginsWith, IsWebAddress};

use csl_common::Memory;
use std::alloc::Global;
use url::{ParseError, Url};

/// Whether a text begins so, letters in either case, after any ASCII white space.
fn begins_with(text: &str, start: &str) -> bool
    ensures { IsTrue result ↔ BeginsWith start.now text.now }
{
    let text = text.trim_ascii_start().as_bytes();
    match text.split_at_checked(start.len()) {
        Some((begin, _)) => begin.eq_ignore_ascii_case(start.as_bytes()),
        None => false,
    }
}

/// Whether a text is an absolute address with a host of its own, whose scheme is `http` or `https`,
/// as the URL Standard's parser reads it. `https:x.y` is none: a page of `https` reads it as a path
/// of its own site.
///
/// # Errors
/// [`Memory`]: out of memory, or the address is larger than 4 GB.
pub fn is_web_address(alloc: Global, text: &str) -> Result<bool, Memory>
    ensures { IfOk result (λ is_web. IsTrue is_web ↔ IsWebAddress text.now) }
{
    if !begins_with(text, "http://") && !begins_with(text, "https://") {
        return Ok(false);
    }
    match Url::parse(alloc, text) {
        Ok(url) => Ok(matches!(url.scheme(), "http" | "https")),
        Err(ParseError::OutOfMemory | ParseError::Overflow) => Err(Memory),
        Err(_) => Ok(false),
    }
}
