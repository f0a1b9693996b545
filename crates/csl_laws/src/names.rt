//! Equality and order of variables, kinds, terms and slots of ordinals.

ghost use Rattle.std.specs.Prelude.{◌≡◌, ◌↔◌, IsTrue};
ghost use Rattle.std.specs.declared.cmp.Ordering.TheVariants.{Equal};

use csl_style::{Kind, OrdinalSlot, OtherTerm, Term, Variable};
use std::cmp::Ordering;

/// Whether the variables are equal: exactly if they are the same variable.
#[tactic(auto, using(csl_elements::proofs::Variables::variable_decides))]
pub fn same_variable(a: &Variable, b: &Variable) -> bool
    ensures { IsTrue result ↔ (a.now ≡ b.now) }
{
    *a == *b
}

/// Whether the kinds are equal: exactly if they are the same kind.
pub fn same_kind(a: &Kind, b: &Kind) -> bool
    ensures { IsTrue result ↔ (a.now ≡ b.now) }
{
    *a == *b
}

/// The order of the variables: `Equal` exactly if they are the same variable.
#[tactic(auto, using(csl_elements::proofs::Variables::variable_ordered))]
pub fn order_of_variables(a: &Variable, b: &Variable) -> Ordering
    ensures { (result ≡ Equal) ↔ (a.now ≡ b.now) }
{
    a.cmp(b)
}

/// The order of the kinds: `Equal` exactly if they are the same kind.
pub fn order_of_kinds(a: &Kind, b: &Kind) -> Ordering
    ensures { (result ≡ Equal) ↔ (a.now ≡ b.now) }
{
    a.cmp(b)
}

/// Whether the terms are equal: exactly if they are the same term.
#[tactic(auto, using(csl_elements::proofs::Terms::term_decides))]
pub fn same_term(a: &Term, b: &Term) -> bool
    ensures { IsTrue result ↔ (a.now ≡ b.now) }
{
    *a == *b
}

/// Whether the terms that name no variable are equal: exactly if they are the same term.
pub fn same_other_term(a: &OtherTerm, b: &OtherTerm) -> bool
    ensures { IsTrue result ↔ (a.now ≡ b.now) }
{
    *a == *b
}

/// Whether the slots are equal: exactly if they are the same slot.
pub fn same_slot(a: &OrdinalSlot, b: &OrdinalSlot) -> bool
    ensures { IsTrue result ↔ (a.now ≡ b.now) }
{
    *a == *b
}
