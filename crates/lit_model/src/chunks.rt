//! The text of chunks: joining it, and testing whether it is empty or white space.

ghost use Rattle.std.specs.Prelude.{◌≡◌, string_bytes, chars, IfOk};
ghost use Rattle.std.specs.Char.{is_whitespace};
ghost use Rattle.std.specs.List.{list_all};
ghost use Rattle.lit_model.specs.Chunks as spec;
ghost use Rattle.lit_model.specs.Text.{chunks};

use crate::text::ChunkedString;
use csl_common::Memory;
use std::alloc::Global;

impl ChunkedString {
    /// The whole text: the texts of the chunks, one after another.
    pub fn to_text(&self, alloc: Global) -> Result<String, Memory>
        ensures { IfOk result (λ text. string_bytes text ≡ spec.chunks_text (chunks self.now)) }
    {
        let mut text = String::new(alloc);
        for chunk in &self.0 {
            text.push_str(chunk.value.as_str())?;
        }
        Ok(text)
    }

    /// Whether the text is empty: there is no chunk, or each is empty.
    pub fn is_empty(&self) -> bool
        ensures { result ≡ spec.is_empty (chunks self.now) }
    {
        for chunk in &self.0 {
            if !chunk.value.is_empty() {
                return false;
            }
        }
        true
    }

    /// Whether each character of the text is white space (Unicode White_Space); true if it is
    /// empty.
    pub fn is_white_space(&self) -> bool
        ensures { result ≡ spec.is_white_space (chunks self.now) }
    {
        for chunk in &self.0 {
            if !is_white_space(chunk.value.as_str()) {
                return false;
            }
        }
        true
    }
}

fn is_white_space(text: &str) -> bool
    ensures { result ≡ list_all is_whitespace (chars text.now) }
{
    text.chars().all(|c| c.is_whitespace())
}
