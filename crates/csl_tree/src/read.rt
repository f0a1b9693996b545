//! Reads HTML back. The text of a tree's HTML is the tree's leaf text.

ghost use Rattle.std.specs.Prelude.{◌≡◌, ◌⊎◌, ◌↔◌, ◌++◌, ℕ, List, IsTrue, OnOk, Err, IfOk, IsErrOf, MatchResult, string_bytes, reverse, if◌then◌else◌, Some, None};
ghost use Rattle.csl_tree.specs.Html.{IsHtmlOf, IsNotHtml};
ghost use Rattle.csl_tree.specs.Read.{HasEnded, within_after_mark, mark_text};
ghost use Rattle.csl_tree.specs.Tokens.{Token, tokens, leaf_text};
ghost use Rattle.csl_tree.specs.Content.{IsContent};
ghost use Rattle.csl_tree.specs.Write.{text_in_format};
ghost use Rattle.csl_tree.specs.declared.elem.ElemChildren.{ElemChildren};
ghost use Rattle.csl_tree.specs.declared.elem.BufWriteFormat.TheVariants.{Html};

use crate::html_error::HtmlError;
use crate::marks::{Element, Mark, read_piece};
use std::alloc::{AllocError, Global};

/// The state of reading HTML.
#[derive(Drop)]
struct Reading {
    /// The elements that have started and not ended, outermost first.
    within: Vec<Element>,
    /// The texts so far, joined.
    leaves: String,
}

impl Reading {
    /// Reads a tag or a text. Returns whether it is allowed here: an end tag has to end the
    /// innermost element.
    fn take(&mut self, mark: Mark<'_>) -> Result<bool, AllocError>
        ensures within { IfOk result (λ fits. within_after_mark
            (reverse self.old.within.items) mark.entry
            ≡ (if fits then Some (reverse self.new.within.items) else None)) }
        ensures leaves { OnOk result (string_bytes self.new.leaves
            ≡ string_bytes self.old.leaves ++ mark_text mark.entry) }
    {
        match mark {
            Mark::Start(element) => {
                self.within.push(element)?;
                Ok(true)
            }
            Mark::End(element) => match self.within.pop() {
                Some(innermost) => Ok(innermost == element),
                None => Ok(false),
            },
            Mark::Text(text) => {
                self.leaves.push_str(text)?;
                Ok(true)
            }
        }
    }

    /// Whether the HTML and each element have ended.
    fn has_ended(&self, rest: &str) -> bool
        ensures { IsTrue result ↔ HasEnded rest.now (reverse self.now.within.items) }
    {
        rest.is_empty() && self.within.is_empty()
    }
}

/// Returns the text of HTML, unescaped. For the HTML of a tree, it is the tree's leaf text.
///
/// HTML here is a nested list of tags and texts. The tags are those that this crate writes. A
/// `span` has at most one declaration for each attribute, in a fixed order, and may have none.
/// Texts and addresses have no `<`, `>` or `"`, and `&` only in `&amp;`, `&lt;`, `&gt;` and
/// `&quot;`. Elements may be nested to any depth.
///
/// # Errors
/// - [`HtmlError::NotHtml`]: the text is not HTML.
/// - [`HtmlError::Memory`]: out of memory. For a text that is not HTML, this error may come first.
#[tactic(auto, using(crate::proofs::Nested::tree_is_html, crate::proofs::Nested::content_is_html))]
pub fn leaf_text_of_html(alloc: Global, html: &str) -> Result<String, HtmlError>
    // The result is the text of the HTML.
    ensures found { IfOk result (λ text. IsHtmlOf html.now (string_bytes text)) }
    // For HTML, the result is its text, unless memory runs out.
    ensures only { (leaves : List ℕ) → IsHtmlOf html.now leaves
        → MatchResult result (λ text. string_bytes text ≡ leaves) (λ e. e ≡ HtmlError.Memory) }
    ensures not_html { IsErrOf result HtmlError.NotHtml → IsNotHtml html.now }
    // Follows from `found`.
    ensures refused { IsNotHtml html.now → (result ≡ Err HtmlError.NotHtml) ⊎
        (result ≡ Err HtmlError.Memory) }
    // HTML has at most one text.
    ensures unique { (x y : List ℕ) → IsHtmlOf html.now x → IsHtmlOf html.now y → x ≡ y }
    // The HTML of any tree has the tree's leaf text as its text, even if the tree has empty texts.
    ensures law { (c : ElemChildren) → IsHtmlOf (text_in_format Html (tokens c))
        (leaf_text (tokens c)) }
    // The HTML of any content has the content's leaf text as its text.
    ensures content_law { (c : List Token) → IsContent c → IsHtmlOf (text_in_format Html c)
        (leaf_text c) }
{
    let mut reading = Reading {
        within: Vec::new(alloc),
        leaves: String::new(alloc),
    };
    let mut rest = html;
    while let Some((mark, next)) = read_piece(rest) {
        if !reading.take(mark)? {
            return Err(HtmlError::NotHtml);
        }
        rest = next;
    }
    if !reading.has_ended(rest) {
        return Err(HtmlError::NotHtml);
    }
    Ok(reading.leaves)
}
