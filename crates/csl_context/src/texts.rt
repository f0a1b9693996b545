//! Writing of texts, markups and links (CSL 1.0.2, Formatting, Strip-periods).

ghost use Rattle.std.specs.Prelude.{◌≡◌, [], ◌∷◌, ◌++◌, string_bytes, option_map, IfOk, OnOk, OnErr};
ghost use Rattle.csl_tree.specs.Content.{◌++>◌, markup_content, link_content};
ghost use Rattle.csl_tree.specs.Flat.{with_tokens, affix_content};
ghost use Rattle.csl_tree.specs.Tokens.{solid, transparent};
ghost use Rattle.csl_context.specs.Texts as spec;

use csl_tree::{ElemChild, FlatTree, Formatted, Formatting};
use lit_model::Memory;
use std::alloc::Global;

/// The text without its periods.
fn without_periods(alloc: Global, text: &str) -> Result<String, Memory>
    ensures { IfOk result (λ s. string_bytes s ≡ spec.without_periods text.now) }
{
    let kept = text.chars().filter(|c| *c != '.').collect(alloc)?;
    Ok(kept)
}

/// A writer of texts: their formatting, and whether they lose their periods.
#[derive(Clone, Copy)]
pub(crate) struct TextWriter {
    pub(crate) alloc: Global,
    pub(crate) formatting: Formatting,
    pub(crate) strip_periods: bool,
}

impl TextWriter {
    /// Writes a text into the innermost part.
    pub(crate) fn write(self, parts: &mut FlatTree, text: &str) -> Result<(), Memory>
        ensures ok { OnOk result (parts.new
            ≡ with_tokens (spec.formatted_text self.strip_periods self.formatting text.now)
            parts.old) }
        ensures err { OnErr result (parts.new ≡ parts.old) }
    {
        if self.strip_periods {
            parts.take(text.len())?;
            let text = without_periods(self.alloc, text)?;
            parts.push_text(text.as_str(), self.formatting)
        } else {
            parts.push_text(text, self.formatting)
        }
    }

    /// A copy of a text, without its periods if they are stripped.
    fn copy(self, text: &str) -> Result<String, Memory>
        ensures { IfOk result (λ s. string_bytes s ≡ spec.strip_if self.strip_periods text.now) }
    {
        if self.strip_periods {
            without_periods(self.alloc, text)
        } else {
            let copy = String::from_str(self.alloc, text)?;
            Ok(copy)
        }
    }

    /// Appends `text`, if there is one, to `all`.
    fn add(self, all: &mut String, text: Option<&str>) -> Result<(), Memory>
        ensures { OnOk result (string_bytes all.new ≡ string_bytes all.old
            ++ spec.optional_strip_if self.strip_periods (option_map (λ t. t.now) text.entry)) }
    {
        match text {
            Some(text) => {
                if self.strip_periods {
                    let kept = without_periods(self.alloc, text)?;
                    all.push_str(kept.as_str())?;
                } else {
                    all.push_str(text)?;
                }
                Ok(())
            }
            None => Ok(()),
        }
    }

    /// The text of a prefix or a suffix as it is written, if there is one.
    pub(crate) fn affix(self, text: Option<&str>) -> Result<Option<Formatted>, Memory>
        ensures { IfOk result (λ t. affix_content t
            ≡ spec.optional_formatted_text self.strip_periods self.formatting
            (option_map (λ t. t.now) text.entry)) }
    {
        match text {
            Some(text) => {
                let text = self.copy(text)?;
                Ok(Some(self.formatting.add_text(text)))
            }
            None => Ok(None),
        }
    }

    /// A prefix and a suffix as they are written, each if there is one.
    pub(crate) fn affixes(
        self,
        prefix: Option<&str>,
        suffix: Option<&str>,
    ) -> Result<(Option<Formatted>, Option<Formatted>), Memory>
        ensures before { IfOk result (λ t. affix_content t.0
            ≡ spec.optional_formatted_text self.strip_periods self.formatting
            (option_map (λ t. t.now) prefix.entry)) }
        ensures after { IfOk result (λ t. affix_content t.1
            ≡ spec.optional_formatted_text self.strip_periods self.formatting
            (option_map (λ t. t.now) suffix.entry)) }
    {
        let before = self.affix(prefix)?;
        let after = self.affix(suffix)?;
        Ok((before, after))
    }

    /// Two texts in a row as one affix, each if there is one.
    pub(crate) fn affix_of_two(
        self,
        first: Option<&str>,
        second: Option<&str>,
    ) -> Result<Option<Formatted>, Memory>
        ensures { IfOk result (λ t. affix_content t
            ≡ spec.optional_formatted_text self.strip_periods self.formatting
            (option_map (λ t. t.now) first.entry)
            ++> spec.optional_formatted_text self.strip_periods self.formatting
            (option_map (λ t. t.now) second.entry)) }
    {
        let mut text = String::new(self.alloc);
        self.add(&mut text, first)?;
        self.add(&mut text, second)?;
        Ok(Some(Formatted {
            text,
            formatting: self.formatting,
        }))
    }
}

impl TextWriter {
    /// Writes a markup into the innermost part, unless the markup is empty.
    pub(crate) fn write_markup(self, parts: &mut FlatTree, text: &str) -> Result<(), Memory>
        ensures ok { OnOk result (parts.new ≡ with_tokens (markup_content text.now) parts.old) }
        ensures err { OnErr result (parts.new ≡ parts.old) }
    {
        let markup = String::from_str(self.alloc, text)?;
        parts.push(ElemChild::Markup(markup))
    }

    /// Writes a link into the innermost part, unless its text is empty.
    pub(crate) fn write_link(
        self,
        parts: &mut FlatTree,
        text: &str,
        url: &str,
    ) -> Result<(), Memory>
        ensures ok { OnOk result (parts.new
            ≡ with_tokens (link_content text.now self.formatting url.now) parts.old) }
        ensures err { OnErr result (parts.new ≡ parts.old) }
    {
        let text = String::from_str(self.alloc, text)?;
        let text = self.formatting.add_text(text);
        let url = String::from_str(self.alloc, url)?;
        parts.push(ElemChild::Link { text, url })
    }

    /// Writes into the innermost part a place that the caller fills.
    pub(crate) fn write_transparent(
        self,
        parts: &mut FlatTree,
        cite_idx: usize,
    ) -> Result<(), Memory>
        ensures ok { OnOk result (parts.new
            ≡ with_tokens (solid (transparent cite_idx self.formatting) ∷ []) parts.old) }
        ensures err { OnErr result (parts.new ≡ parts.old) }
    {
        let format = self.formatting;
        parts.push(ElemChild::Transparent { cite_idx, format })
    }
}
