//! Variables and kinds as sets, as a layout names them.

ghost use Rattle.std.specs.Prelude.{◌≡◌, IfOk};

use crate::taxonomy::{
    DateVariable, Kind, NameVariable, NumberVariable, PageVariable, StandardVariable,
};
use csl_common::Memory;
use std::alloc::Global;
use std::collections::BTreeSet;

/// Named variables, by their type, and named kinds.
#[derive(Drop)]
pub struct Named {
    pub numbers: BTreeSet<NumberVariable>,
    pub pages: BTreeSet<PageVariable>,
    pub standards: BTreeSet<StandardVariable>,
    pub names: BTreeSet<NameVariable>,
    pub dates: BTreeSet<DateVariable>,
    pub kinds: BTreeSet<Kind>,
}

impl Named {
    /// An equal value.
    pub fn clone(&self, _alloc: Global) -> Result<Named, Memory>
        ensures { IfOk result (λ copy. copy ≡ self.now) }
    {
        let numbers = self.numbers.clone()?;
        let pages = self.pages.clone()?;
        let standards = self.standards.clone()?;
        let names = self.names.clone()?;
        let dates = self.dates.clone()?;
        let kinds = self.kinds.clone()?;
        Ok(Named {
            numbers,
            pages,
            standards,
            names,
            dates,
            kinds,
        })
    }
}
