//! Equality and hash of trees and their parts, and equality of stacks.
//! Definitions: crates/csl_tree/specs/Tokens.antt.

ghost use Rattle.std.specs.Prelude.{◌≡◌, ◌↔◌, IsTrue};
ghost use Rattle.csl_tree.specs.Tokens.{tokens, elem_tokens, child_tokens, meta_of, text_tokens};
ghost use Rattle.csl_tree.specs.contracts.elem.ElemChildrenHash.TheImpl.{hash_input-value as hash_tree};
ghost use Rattle.csl_tree.specs.contracts.elem.ElemHash.TheImpl.{hash_input-value as hash_elem};
ghost use Rattle.csl_tree.specs.contracts.elem.ElemChildHash.TheImpl.{hash_input-value as hash_child};
ghost use Rattle.csl_tree.specs.contracts.elem.ElemMetaHash.TheImpl.{hash_input-value as hash_meta};
ghost use Rattle.csl_tree.specs.contracts.formatting.FormattedHash.TheImpl.{hash_input-value as hash_text};
ghost use Rattle.csl_tree.specs.contracts.formatting.FormattingHash.TheImpl.{hash_input-value as hash_formatting};

use csl_tree::{Elem, ElemChild, ElemChildren, ElemMeta, Formatted, Formatting, NonEmptyStack};

/// Whether the trees are equal: exactly if their tokens are. Equal trees have the same hash.
#[tactic(auto, using(csl_tree::proofs::TreeEqual::children_decide))]
pub fn same_tree(a: &ElemChildren, b: &ElemChildren) -> bool
    ensures equal { IsTrue result ↔ (tokens a.now ≡ tokens b.now) }
    ensures hashed { tokens a.now ≡ tokens b.now → hash_tree.it a.now ≡ hash_tree.it b.now }
{
    *a == *b
}

/// Whether the elements are equal: exactly if their tokens are. Equal elements have the same hash.
#[tactic(auto, using(csl_tree::proofs::TreeEqual::elem_decides))]
pub fn same_elem(a: &Elem, b: &Elem) -> bool
    ensures equal { IsTrue result ↔ (elem_tokens a.now ≡ elem_tokens b.now) }
    ensures hashed { elem_tokens a.now ≡ elem_tokens b.now
        → hash_elem.it a.now ≡ hash_elem.it b.now }
{
    *a == *b
}

/// Whether the children are equal: exactly if their tokens are. Equal children have the same hash.
#[tactic(auto, using(csl_tree::proofs::TreeEqual::child_decides))]
pub fn same_child(a: &ElemChild, b: &ElemChild) -> bool
    ensures equal { IsTrue result ↔ (child_tokens a.now ≡ child_tokens b.now) }
    ensures hashed { child_tokens a.now ≡ child_tokens b.now
        → hash_child.it a.now ≡ hash_child.it b.now }
{
    *a == *b
}

/// Whether the metas are equal: exactly if their views are. Equal metas have the same hash.
#[tactic(auto, using(csl_tree::proofs::MetaEqual::meta_decides))]
pub fn same_meta(a: &ElemMeta, b: &ElemMeta) -> bool
    ensures equal { IsTrue result ↔ (meta_of a.now ≡ meta_of b.now) }
    ensures hashed { meta_of a.now ≡ meta_of b.now → hash_meta.it a.now ≡ hash_meta.it b.now }
{
    *a == *b
}

/// Whether the texts are equal: exactly if their tokens are. Equal texts have the same hash.
#[tactic(auto, using(csl_tree::proofs::MetaEqual::formatted_decides))]
pub fn same_text(a: &Formatted, b: &Formatted) -> bool
    ensures equal { IsTrue result ↔ (text_tokens a.now ≡ text_tokens b.now) }
    ensures hashed { text_tokens a.now ≡ text_tokens b.now
        → hash_text.it a.now ≡ hash_text.it b.now }
{
    *a == *b
}

/// Whether the formattings are equal: exactly if they are the same. Equal ones have the same hash.
#[tactic(auto, using(csl_tree::proofs::MetaEqual::formatting_decides))]
pub fn same_formatting(a: Formatting, b: Formatting) -> bool
    ensures equal { IsTrue result ↔ (a ≡ b) }
    ensures hashed { a ≡ b → hash_formatting.it a ≡ hash_formatting.it b }
{
    a == b
}

/// Whether the stacks are equal: exactly if they have the same items.
pub fn same_stack(a: &NonEmptyStack<u8>, b: &NonEmptyStack<u8>) -> bool
    ensures { IsTrue result ↔ (a.now ≡ b.now) }
{
    *a == *b
}
