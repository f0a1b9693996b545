//! Texts of one chunk.
//! Definitions: specs/Answers.antt.

ghost use Rattle.std.specs.Prelude.{◌≡◌, IfOk, string_bytes};
ghost use Rattle.csl_entry.specs.Answers as spec;
ghost use Rattle.lit_model.specs.Text.{chunks};

use lit_model::{ChunkKind, ChunkedString, Memory, StringChunk};
use std::alloc::Global;

/// Returns the text as one chunk of this kind (CSL 1.0.2, Standard Variables).
pub(crate) fn one_chunk(
    alloc: Global,
    text: String,
    kind: ChunkKind,
) -> Result<ChunkedString, Memory>
    ensures { IfOk result (λ t. chunks t ≡ spec.one_chunk kind (string_bytes text)) }
{
    let mut pieces = Vec::with_capacity(alloc, 1)?;
    pieces.push(StringChunk { value: text, kind })?;
    Ok(ChunkedString(pieces))
}
