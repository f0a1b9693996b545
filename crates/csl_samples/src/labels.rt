//! The labels and the kinds of the built-in entries.
//! Definitions: specs/Entries.antt.

ghost use Rattle.std.specs.Prelude.{◌≡◌, IfOk, string_bytes};
ghost use Rattle.csl_samples.specs.declared.entries.BuiltIn.{BuiltIn};
ghost use Rattle.csl_samples.specs.Entries.{IsBuiltIn, label_text, is_built_in_kind};

use crate::entries::BuiltIn;
use csl_entry::{Alphanumerical, EntryLike};
use csl_style::Kind;
use lit_model::{Entry, Memory};
use std::alloc::Global;

impl BuiltIn {
    /// The label of the entry, with three letters.
    pub fn label(self, alloc: Global) -> Result<String, Memory>
        ensures { IfOk result (λ label. string_bytes label ≡ label_text self) }
    {
        let entry = self.entry(alloc)?;
        let label = label_of(alloc, &entry);
        drop(entry);
        label
    }

    /// Whether the entry is of a kind.
    pub fn is_of_kind(self, alloc: Global, kind: Kind) -> Result<bool, Memory>
        ensures { IfOk result (λ answer. answer ≡ is_built_in_kind kind self) }
    {
        let work = self.entry(alloc)?;
        let answer = is_of_kind(kind, &work);
        drop(work);
        Ok(answer)
    }
}

/// The label, with three letters, of an [`Entry`]. The clause is for those that are built in.
fn label_of(alloc: Global, work: &Entry) -> Result<String, Memory>
    ensures { (entry : BuiltIn) → IsBuiltIn entry work.now
        → IfOk result (λ label. string_bytes label ≡ label_text entry) }
{
    Alphanumerical::new().citation(alloc, work)
}

/// Whether an [`Entry`] is of a kind. The clause is for those that are built in.
fn is_of_kind(kind: Kind, work: &Entry) -> bool
    ensures { (entry : BuiltIn) → IsBuiltIn entry work.now → result ≡ is_built_in_kind kind entry }
{
    work.matches_entry_type(kind)
}
