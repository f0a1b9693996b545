//! The formats in which a request wants its contents.

use csl_wire::{Form, Reader, Step, WireError, chosen, within, word_of};
use csl_wire_reply::Formats;
use serde_json::Value;

/// A format.
#[derive(Clone, Copy)]
enum Format {
    Plain,
    Html,
    Tree,
}

/// The names of formats.
static FORMATS: [(&str, Format); 3] = [
    ("plain", Format::Plain),
    ("html", Format::Html),
    ("tree", Format::Tree),
];

/// The choices of links: whether all of them stay.
static LINKS: [(&str, bool); 2] = [("web", false), ("all", true)];

/// The formats with one more.
fn with_format(reader: Reader, formats: Formats, value: &Value) -> Result<Formats, WireError> {
    let word = word_of(reader, value)?;
    Ok(match chosen(reader, &FORMATS, word)? {
        Format::Plain => Formats {
            plain: true,
            ..formats
        },
        Format::Html => Formats {
            html: true,
            ..formats
        },
        Format::Tree => Formats {
            tree: true,
            ..formats
        },
    })
}

/// The formats that a request wants: without the member, plain text and HTML.
pub(crate) fn formats_of(form: Form<'_>) -> Result<Formats, WireError> {
    let is_usual = form.member("formats").is_none();
    let mut formats = Formats {
        plain: is_usual,
        html: is_usual,
        tree: false,
        has_all_links: form.choice("links", &LINKS)?.unwrap_or(false),
    };
    for (place, value) in form.items("formats")?.iter().enumerate() {
        let step = Step::Item(place);
        let read = within(step, with_format(form.reader, formats, value));
        formats = within(Step::Member("formats"), read)?;
    }
    Ok(formats)
}
