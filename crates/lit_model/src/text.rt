//! Texts that a style prints.

ghost use Rattle.std.specs.Prelude.{◌≡◌, option_map, string_bytes, IfOk};
ghost use Rattle.lit_model.specs.Text as spec;

use csl_common::{LongShortForm, Memory};
use std::alloc::Global;

/// The kind of a chunk: whether a style may change its text.
#[derive(Clone, Copy, Debug, Default, PartialEq, Eq, Hash)]
pub enum ChunkKind {
    /// A style may change the text, for example its case.
    #[default]
    Normal,
    /// No style changes the text.
    Verbatim,
    /// Mathematics. No style changes it.
    Math,
}

/// A piece of a text.
#[derive(PartialEq, Eq, Hash, Drop)]
pub struct StringChunk {
    /// The text.
    pub value: String,
    /// Whether a style may change the text.
    pub kind: ChunkKind,
}

/// A text in pieces.
#[derive(PartialEq, Eq, Hash, Drop)]
pub struct ChunkedString(pub Vec<StringChunk>);

/// A text, with a short form if it has one.
#[derive(PartialEq, Eq, Drop)]
pub struct FormatString {
    /// The whole text.
    pub value: ChunkedString,
    /// The short form.
    pub short: Option<ChunkedString>,
}

impl ChunkedString {
    /// A text in one piece, which a style may change.
    pub fn plain(alloc: Global, text: &str) -> Result<ChunkedString, Memory>
        ensures { IfOk result (λ plain. spec.chunks plain ≡ spec.in_one_piece text.now) }
    {
        let chunk = StringChunk {
            value: String::from_str(alloc, text)?,
            kind: ChunkKind::Normal,
        };
        Ok(ChunkedString(vec![in alloc; chunk]?))
    }
}

impl FormatString {
    /// A text in one piece, which a style may change, without a short form.
    pub fn plain(alloc: Global, text: &str) -> Result<FormatString, Memory>
        ensures { IfOk result (λ plain. spec.format_string_view plain ≡ spec.plain_forms text.now) }
    {
        Ok(FormatString {
            value: ChunkedString::plain(alloc, text)?,
            short: None,
        })
    }

    /// The text in a form: the short form if it is requested and there is one, else the whole text.
    pub fn select(&self, form: LongShortForm) -> &ChunkedString
        ensures { result.now ≡ spec.select form self.now }
    {
        match form {
            LongShortForm::Long => &self.value,
            LongShortForm::Short => match &self.short {
                Some(short) => short,
                None => &self.value,
            },
        }
    }
}

impl StringChunk {
    /// A copy.
    pub fn clone(&self, alloc: Global) -> Result<StringChunk, Memory>
        ensures { IfOk result (λ c. spec.chunk_of c ≡ spec.chunk_of self.now) }
    {
        let value = String::from_str(alloc, self.value.as_str())?;
        Ok(StringChunk {
            value,
            kind: self.kind,
        })
    }
}

impl ChunkedString {
    /// A copy.
    pub fn clone(&self, alloc: Global) -> Result<ChunkedString, Memory>
        ensures { IfOk result (λ t. spec.chunks t ≡ spec.chunks self.now) }
    {
        let mut copies = Vec::with_capacity(alloc, self.0.len())?;
        for chunk in &self.0 {
            copies.push(chunk.clone(alloc)?)?;
        }
        Ok(ChunkedString(copies))
    }
}

impl FormatString {
    /// A copy.
    pub fn clone(&self, alloc: Global) -> Result<FormatString, Memory>
        ensures { IfOk result (λ t. spec.format_string_view t ≡ spec.format_string_view self.now) }
    {
        let value = self.value.clone(alloc)?;
        let short = copy_short(&self.short, alloc)?;
        Ok(FormatString { value, short })
    }
}

fn copy_short(short: &Option<ChunkedString>, alloc: Global) -> Result<Option<ChunkedString>, Memory>
    ensures { IfOk result (λ t. option_map spec.chunks t ≡ option_map spec.chunks short.now) }
{
    match short {
        None => Ok(None),
        Some(short) => {
            let copy = short.clone(alloc)?;
            Ok(Some(copy))
        }
    }
}

/// A copy of a text, if there is one.
pub(crate) fn copy_text(text: &Option<String>, alloc: Global) -> Result<Option<String>, Memory>
    ensures { IfOk result (λ t. option_map string_bytes t ≡ option_map string_bytes text.now) }
{
    match text {
        None => Ok(None),
        Some(text) => {
            let copy = String::from_str(alloc, text.as_str())?;
            Ok(Some(copy))
        }
    }
}

/// A copy of a text with its forms, if there is one.
pub(crate) fn copy_forms(
    text: &Option<FormatString>,
    alloc: Global,
) -> Result<Option<FormatString>, Memory>
    ensures { IfOk result (λ t. option_map spec.format_string_view t
        ≡ option_map spec.format_string_view text.now) }
{
    match text {
        None => Ok(None),
        Some(text) => {
            let copy = text.clone(alloc)?;
            Ok(Some(copy))
        }
    }
}
