//! A rendered text as publishers print it.
//! Definitions: specs/Letters.antt.

ghost use Rattle.std.specs.Prelude.{◌≡◌, OnErr, OnOk};
ghost use Rattle.csl_tree.specs.Tokens.{tokens};
ghost use Rattle.csl_finish.specs.Letters.{bares};

use crate::letters::{Letter, read_letters, with_texts, write_letters};
use crate::punctuation::merged_letters;
use crate::quotes::{Quotes, nested_quotes, with_marks_in_quotes};
use crate::spaces::with_narrow_spaces;
use csl_style::Style;
use csl_tree::ElemChildren;
use lit_model::Memory;
use std::alloc::Global;

/// The letters with the quotes of the style's language, and the punctuation that belongs to them.
fn with_quotes(alloc: Global, style: &Style, letters: Vec<Letter>) -> Result<Vec<Letter>, Memory> {
    let Some(quotes) = Quotes::of(style) else {
        return Ok(letters);
    };
    let mut letters = nested_quotes(alloc, &letters, quotes)?;
    if quotes.are_french() {
        letters = with_narrow_spaces(alloc, &letters)?;
    }
    if style.is_punctuation_in_quote() {
        return with_marks_in_quotes(alloc, &letters);
    }
    Ok(letters)
}

/// Finishes the texts of a content.
///
/// - *Quotes*: those in the text become those of the style's language, and quotes inside of quotes
///   alternate between the outer and the inner ones. Before a letter `’` is an apostrophe. Between
///   a space, a bracket or an opening mark and a letter, a mark opens a quote if it may: in German
///   `“`, which opens one in English, closes one elsewhere.
/// - *Commas and periods* after closing quotes move into them, through several, if the first locale
///   says so (CSL 1.0.2, Locale Options: punctuation-in-quote). After `?` or `!` they are left out.
/// - *Marks in a row*, in one text or where texts join: one of them stays, as in citeproc-js. Of
///   `..`, `. .`, `,,`, `;;` and `::` it is the first, of `?.`, `!.`, `?:` and `!:` the mark that
///   ends a sentence, of `:.`, `;.` and `;:` the first, of `:?`, `:!`, `;?` and `;!` the second.
///   Three periods in one text are an ellipsis and stay, also with spaces between them. So does a
///   period before a letter, a digit or a slash of its own text.
/// - *Spaces*: one of two stays, and none before a comma or a period. If the quotes are those of
///   French, a space before `;`, `:`, `!`, `?` and `»`, and one after `«`, becomes a narrow one.
///
/// Links, markup and places for texts of cites stay as they are.
///
/// # Errors
/// [`Memory`]: out of memory. The content is unchanged.
pub fn finish(alloc: Global, style: &Style, content: &mut ElemChildren) -> Result<(), Memory>
    // Links, markup, places and elements stay, and so does each text with its formatting.
    ensures others { OnOk result (bares (tokens content.new) ≡ bares (tokens content.old)) }
    ensures err { OnErr result (content.new ≡ content.old) }
{
    let mut letters = Vec::new(alloc);
    let mut texts = Vec::new(alloc);
    read_letters(alloc, content, &mut letters, &mut texts)?;
    let letters = with_quotes(alloc, style, letters)?;
    let letters = merged_letters(alloc, &letters)?;
    write_letters(&letters, &mut texts)?;
    *content = with_texts(alloc, content, &mut texts.into_iter())?;
    Ok(())
}
