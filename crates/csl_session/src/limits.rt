//! What a session allows.
//! Definitions: specs/Limits.antt.

ghost use Rattle.std.specs.Prelude.{◌≡◌, ◌<◌, ◌↔◌, IsTrue};
ghost use Rattle.csl_session.specs.Limits as spec;
ghost use Rattle.csl_session.specs.Limits.{values};

use csl_wire::{Code, Form, Limits, Step, WireError};
use csl_wire_cite::WorkLimits;
use csl_wire_list::{DocumentLimits, OptionLimits};
use serde_json::Value;

/// How large a style may be when it is rendered, as [`csl::Style::all_within`] counts it.
#[derive(Clone, Copy, Debug, PartialEq, Eq)]
pub struct StyleLimits {
    /// The most nodes that one rendering goes through.
    pub rendered: u64,
    /// The largest size of a layout, with each macro in the place of its name.
    pub size: u64,
    /// The greatest depth of a layout.
    pub depth: usize,
}

/// The longest request of a stranger, in bytes.
pub const LONGEST_REQUEST: usize = 32_000_000;

/// What a session allows.
#[derive(Clone, Copy, Debug, PartialEq, Eq)]
pub struct SessionLimits {
    /// The most bytes of a request.
    pub request: usize,
    /// How much is read of a style.
    pub read: Limits,
    /// How large a style may be, if that is limited.
    pub style: Option<StyleLimits>,
    /// The most locales of a style.
    pub locales: usize,
    /// The most keys that a style sorts citations by. It sorts a bibliography by no more.
    pub keys: usize,
    /// The most values of a request, as its characters `{`, `[`, `,` and `:` count them.
    pub values: usize,
    /// The most items of a request: works, cites, lines or keys. Each has a reply of its own.
    pub items: usize,
    /// How much is read of a work and of a cite.
    pub work: WorkLimits,
    /// How much is read of a document.
    pub document: DocumentLimits,
    /// How many bytes one request may render, as [`csl::Renderer::limited`] counts them.
    pub room: u64,
    /// The most bytes of a reply that is no refusal.
    pub reply: usize,
    /// The most bytes of all styles that are kept, as JSON texts without spaces, with their names.
    /// A style counts 500 more, and each of its locales 2,000.
    pub kept_styles: u64,
    /// The most bytes of all works that are kept, likewise. A work counts 500 more.
    pub kept_works: u64,
}

impl SessionLimits {
    /// The limits for requests from strangers.
    pub fn of_strangers() -> SessionLimits {
        SessionLimits {
            request: LONGEST_REQUEST,
            read: Limits::of_strangers(),
            style: Some(StyleLimits {
                rendered: 2_000,
                size: 20_000,
                depth: 64,
            }),
            locales: 20,
            keys: 20,
            values: 1_000_000,
            items: 10_000,
            work: WorkLimits::of_strangers(),
            document: DocumentLimits::of_strangers(),
            room: 4_000_000,
            reply: 16_000_000,
            kept_styles: 16_000_000,
            kept_works: 32_000_000,
        }
    }

    /// No limits, for requests that are trusted.
    pub fn none() -> SessionLimits {
        SessionLimits {
            request: usize::MAX,
            read: Limits::none(),
            style: None,
            locales: usize::MAX,
            keys: usize::MAX,
            values: usize::MAX,
            items: usize::MAX,
            work: WorkLimits::none(),
            document: DocumentLimits::none(),
            room: u64::MAX,
            reply: usize::MAX,
            kept_styles: u64::MAX,
            kept_works: u64::MAX,
        }
    }

    /// How much is read of a style with its options.
    pub(crate) fn options(self) -> OptionLimits {
        OptionLimits {
            text: self.read.text,
            keys: self.keys,
        }
    }
}

/// Whether a byte may stand before a value.
fn is_before_value(byte: u8) -> bool
    ensures { result ≡ spec.is_before_value byte }
{
    matches!(byte, b'{' | b'[' | b',' | b':')
}

/// Whether a text has more values than so many. A value takes up to a hundred times the memory of
/// its text.
pub(crate) fn has_more_values(text: &[u8], most: usize) -> bool
    ensures { IsTrue result ↔ (most < values text.now) }
{
    let mut left = most;
    for byte in text {
        if is_before_value(*byte) {
            if left == 0 {
                return true;
            }
            left -= 1;
        }
    }
    false
}

/// The items of a member, if there are no more than are allowed.
pub(crate) fn items_within<'v>(
    form: Form<'v>,
    name: &'static str,
    most: usize,
) -> Result<&'v [Value], WireError> {
    let items = form.items(name)?;
    if items.len() <= most {
        return Ok(items);
    }
    let reason = "the request has more items than are allowed";
    Err(WireError::of(form.reader.alloc, Code::TooLarge, reason).after(Step::Member(name)))
}
