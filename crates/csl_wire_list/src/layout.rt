//! The texts of a layout that are for the program that lists its contents: its affixes, and the
//! delimiter between cites (CSL 1.0.2, Layout; Affixes; Delimiter).
//! Definitions: specs/Layouts.antt.

ghost use Rattle.std.specs.Prelude.{◌≡◌, Some, IfOk, codes, string_bytes};
ghost use Rattle.serde_json.specs.View.{view};
ghost use Rattle.csl_wire.specs.Reading.{member};
ghost use Rattle.csl_wire_list.specs.Layouts.{read_layout_text, read_text};

use csl_wire::{Form, Step, WireError, within};

/// The text of a member, or an empty one.
fn text_or_empty(form: Form<'_>, name: &'static str) -> Result<String, WireError>
    ensures { IfOk result (λ t. read_text name.now (view form.entry.value.now)
        ≡ Some (string_bytes t)) }
{
    match form.text(name)? {
        Some(text) => Ok(text),
        None => Ok(String::new(form.reader.alloc)),
    }
}

/// The texts of a layout.
#[derive(Drop)]
pub(crate) struct LayoutTexts {
    pub(crate) prefix: String,
    pub(crate) suffix: String,
    pub(crate) delimiter: String,
}

/// The texts of the layout among the members, which has these members. One that is absent is empty.
pub(crate) fn layout_texts(form: Form<'_>, known: &[&str]) -> Result<LayoutTexts, WireError>
    ensures prefix { IfOk result (λ l. read_layout_text (codes "prefix")
        (view form.entry.value.now) ≡ Some (string_bytes l.prefix)) }
    ensures suffix { IfOk result (λ l. read_layout_text (codes "suffix")
        (view form.entry.value.now) ≡ Some (string_bytes l.suffix)) }
    ensures delimiter { IfOk result (λ l. read_layout_text (codes "delimiter")
        (view form.entry.value.now) ≡ Some (string_bytes l.delimiter)) }
{
    let Some(value) = form.member("layout") else {
        let alloc = form.reader.alloc;
        return Ok(LayoutTexts {
            prefix: String::new(alloc),
            suffix: String::new(alloc),
            delimiter: String::new(alloc),
        });
    };
    let step = Step::Member("layout");
    let layout = within(step, Form::of(form.reader, value, &[known]))?;
    Ok(LayoutTexts {
        prefix: within(step, text_or_empty(layout, "prefix"))?,
        suffix: within(step, text_or_empty(layout, "suffix"))?,
        delimiter: within(step, text_or_empty(layout, "delimiter"))?,
    })
}
