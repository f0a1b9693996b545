//! The works that a document names: each once, in the order in which they are first named.
//! Definitions: specs/Works.antt.

ghost use Rattle.std.specs.Prelude.{◌≡◌, [], Some, IfOk, OnOk, slice_get};
ghost use Rattle.csl_wire_list.specs.Works.{names_of, with_name, AreIndices};

use csl_common::Memory;
use std::alloc::Global;
use std::collections::BTreeMap;

/// The place where a document names a work.
#[derive(Clone, Copy, Debug, PartialEq, Eq)]
pub(crate) enum Mention {
    /// In a cite of a citation.
    Cite { citation: usize, item: usize },
    /// Among the works that are listed without a cite.
    Work(usize),
}

/// A work that a document names.
#[derive(Clone, Copy)]
pub struct NamedWork<'v> {
    /// Its name.
    pub name: &'v str,
    /// The place where the document names it first.
    pub(crate) first: Mention,
}

/// The works that a document has named so far, each once, as they are first named.
#[derive(Drop)]
pub(crate) struct WorksSoFar<'v> {
    pub(crate) works: Vec<NamedWork<'v>>,
    /// The index of the work of a name.
    indices: BTreeMap<&'v str, usize>,
    ghost indexed: { AreIndices (names_of works.items) indices },
}

impl<'v> WorksSoFar<'v> {
    /// No works.
    #[tactic(auto, using(crate::proofs::Names::nothing_indexed))]
    pub(crate) fn new(alloc: Global) -> WorksSoFar<'v>
        ensures { result.works.items ≡ [] }
    {
        WorksSoFar {
            works: Vec::new(alloc),
            indices: BTreeMap::new(alloc),
        }
    }

    /// The index of the work of this name, which is one of the works from now on.
    #[tactic(auto, using(crate::proofs::Names::last_named))]
    pub(crate) fn index_of(&mut self, name: &'v str, first: Mention) -> Result<usize, Memory>
        ensures index { IfOk result (λ index. slice_get (names_of self.new.works.items) index
            ≡ Some name.now) }
        ensures names { OnOk result (names_of self.new.works.items
            ≡ with_name (names_of self.old.works.items) name.now) }
    {
        if let Some(index) = self.indices.get(name) {
            return Ok(*index);
        }
        let index = self.works.len();
        self.works.push(NamedWork { name, first })?;
        match self.indices.insert(name, index) {
            Ok(_) => Ok(index),
            Err(_) => {
                self.works.truncate(index);
                Err(Memory)
            }
        }
    }

    /// The works.
    pub(crate) fn into_works(self) -> Vec<NamedWork<'v>>
        ensures { result ≡ self.entry.works }
    {
        let WorksSoFar { works, indices } = self;
        drop(indices);
        works
    }
}
