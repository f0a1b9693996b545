//! Texts as an entry holds them.

ghost use Rattle.std.specs.Prelude.{◌≡◌};
ghost use Rattle.lit_model.specs.Chunks.{is_empty, is_white_space};
ghost use Rattle.csl_entry.specs.LentText.{lent_chunks};

use lit_model::ChunkedString;
use std::borrow::Cow;

/// A text, lent if the entry holds it.
#[derive(Drop)]
pub enum LentText<'a> {
    /// A text in chunks.
    Chunks(Cow<'a, ChunkedString>),
    /// A text of one chunk that no style changes.
    Verbatim(&'a str),
}

impl<'a> LentText<'a> {
    /// Whether the text is empty.
    #[tactic(auto, using(crate::proofs::LentTexts::text_of_one))]
    pub fn is_empty(&self) -> bool
        ensures { result ≡ is_empty (lent_chunks self.now) }
    {
        match self {
            LentText::Chunks(text) => text.as_ref().is_empty(),
            LentText::Verbatim(text) => text.is_empty(),
        }
    }

    /// Whether each character of the text is white space (Unicode White_Space); true if it is
    /// empty.
    #[tactic(auto, using(crate::proofs::LentTexts::text_of_one))]
    pub fn is_white_space(&self) -> bool
        ensures { result ≡ is_white_space (lent_chunks self.now) }
    {
        match self {
            LentText::Chunks(text) => text.as_ref().is_white_space(),
            LentText::Verbatim(text) => text.chars().all(|c| c.is_whitespace()),
        }
    }
}
