//! The values that a session keeps by names, bounded in bytes.
//! Definitions: specs/Kept.antt.

ghost use Rattle.std.specs.Prelude.{◌≡◌, ◌+◌, ◌≤◌, OnErr, string_bytes};
ghost use Rattle.csl_session.specs.Kept.{bytes_at, entries_bytes};

use std::alloc::Global;
use std::collections::BTreeMap;

/// A value that is kept, and the bytes of its text.
#[derive(Drop)]
pub(crate) struct Kept<T> {
    value: T,
    bytes: u64,
}

/// Why a value is not kept.
#[derive(Clone, Copy, Debug, PartialEq, Eq)]
pub(crate) enum Refused {
    /// Out of memory.
    Memory,
    /// What is kept would be larger than is allowed.
    Full,
}

/// Values that are kept by names. The bytes of their texts are at most so many together.
#[derive(Drop)]
pub(crate) struct Shelf<T> {
    pub(crate) kept: BTreeMap<String, Kept<T>>,
    bytes: u64,
    most: u64,
    ghost counted: { bytes ≡ entries_bytes kept.entries },
    ghost bounded: { bytes ≤ most },
}

impl<T: Drop> Shelf<T> {
    /// A shelf without values, for texts of at most so many bytes together.
    pub(crate) fn new(alloc: Global, most: u64) -> Shelf<T>
        ensures { entries_bytes result.kept.entries ≡ 0 }
    {
        Shelf {
            kept: BTreeMap::new(alloc),
            bytes: 0,
            most,
        }
    }

    /// The value of a name.
    pub(crate) fn get(&self, name: &str) -> Option<&T> {
        match self.kept.get(name) {
            Some(kept) => Some(&kept.value),
            None => None,
        }
    }

    /// The bytes of the text of the value of a name, or 0.
    #[tactic(auto, using(crate::proofs::Sums::bytes_below))]
    fn bytes_of(&self, name: &String) -> u64
        ensures value { result ≡ bytes_at name.now self.now.kept }
        ensures below { result ≤ entries_bytes self.now.kept.entries }
    {
        match self.kept.get(name) {
            Some(kept) => kept.bytes,
            None => 0,
        }
    }

    /// Keeps a value by a name, with the bytes of its text. The one that was kept by it goes.
    #[tactic(auto, using(crate::proofs::Sums::bytes_put))]
    pub(crate) fn put(&mut self, name: String, value: T, bytes: u64) -> Result<(), Refused>
        ensures left { OnErr result (self.new.kept.entries ≡ self.old.kept.entries) }
    {
        let rest = self.bytes.saturating_sub(self.bytes_of(&name));
        let sum = match rest.checked_add(bytes) {
            Some(sum) if sum <= self.most => sum,
            _ => {
                drop(value);
                return Err(Refused::Full);
            }
        };
        match self.kept.insert(name, Kept { value, bytes }) {
            Ok(before) => {
                drop(before);
                self.bytes = sum;
                Ok(())
            }
            Err(refused) => {
                drop(refused);
                Err(Refused::Memory)
            }
        }
    }

    /// Forgets the value of a name. Returns whether there was one.
    #[tactic(auto, using(crate::proofs::Sums::bytes_gone))]
    pub(crate) fn remove(&mut self, name: &str) -> bool {
        match self.kept.remove(name) {
            Some(kept) => {
                self.bytes = self.bytes.saturating_sub(kept.bytes);
                drop(kept);
                true
            }
            None => false,
        }
    }
}
