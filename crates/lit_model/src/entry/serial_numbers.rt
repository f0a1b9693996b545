//! The serial numbers of an entry, set one by one.
//! Definitions: specs/Entry.antt.

ghost use Rattle.std.specs.Prelude.{codes, OnOk, OnErr};
ghost use Rattle.lit_model.specs.Entry.{HasSerials, own_serials, serials_with};

use crate::entry::Entry;
use crate::source::SerialNumber;
use csl_common::Memory;
use std::alloc::Global;

impl Entry {
    /// Sets the entry's own number under the name of a scheme, such as `doi`. It replaces the
    /// number that the scheme had.
    ///
    /// # Errors
    /// [`Memory`]: out of memory. The entry is unchanged.
    pub fn set_keyed_serial_number(
        &mut self,
        alloc: Global,
        scheme: &str,
        number: &str,
    ) -> Result<(), Memory>
        ensures ok { OnOk result (HasSerials (serials_with scheme.now number.now self.old)
            self.old self.new) }
        ensures err { OnErr result (HasSerials (own_serials self.old) self.old self.new) }
    {
        if let Some(numbers) = &mut self.serial_number {
            return numbers.set(alloc, scheme, number);
        }
        let mut numbers = SerialNumber::new(alloc);
        numbers.set(alloc, scheme, number)?;
        self.serial_number = Some(numbers);
        Ok(())
    }

    /// Sets the digital object identifier.
    ///
    /// # Errors
    /// [`Memory`]: out of memory. The entry is unchanged.
    pub fn set_doi(&mut self, alloc: Global, number: &str) -> Result<(), Memory>
        ensures ok { OnOk result (HasSerials (serials_with (codes "doi") number.now self.old)
            self.old self.new) }
        ensures err { OnErr result (HasSerials (own_serials self.old) self.old self.new) }
    {
        self.set_keyed_serial_number(alloc, "doi", number)
    }

    /// Sets the international standard book number.
    ///
    /// # Errors
    /// [`Memory`]: out of memory. The entry is unchanged.
    pub fn set_isbn(&mut self, alloc: Global, number: &str) -> Result<(), Memory>
        ensures ok { OnOk result (HasSerials (serials_with (codes "isbn") number.now self.old)
            self.old self.new) }
        ensures err { OnErr result (HasSerials (own_serials self.old) self.old self.new) }
    {
        self.set_keyed_serial_number(alloc, "isbn", number)
    }

    /// Sets the international standard serial number.
    ///
    /// # Errors
    /// [`Memory`]: out of memory. The entry is unchanged.
    pub fn set_issn(&mut self, alloc: Global, number: &str) -> Result<(), Memory>
        ensures ok { OnOk result (HasSerials (serials_with (codes "issn") number.now self.old)
            self.old self.new) }
        ensures err { OnErr result (HasSerials (own_serials self.old) self.old self.new) }
    {
        self.set_keyed_serial_number(alloc, "issn", number)
    }

    /// Sets the number in PubMed.
    ///
    /// # Errors
    /// [`Memory`]: out of memory. The entry is unchanged.
    pub fn set_pmid(&mut self, alloc: Global, number: &str) -> Result<(), Memory>
        ensures ok { OnOk result (HasSerials (serials_with (codes "pmid") number.now self.old)
            self.old self.new) }
        ensures err { OnErr result (HasSerials (own_serials self.old) self.old self.new) }
    {
        self.set_keyed_serial_number(alloc, "pmid", number)
    }

    /// Sets the number in PubMed Central.
    ///
    /// # Errors
    /// [`Memory`]: out of memory. The entry is unchanged.
    pub fn set_pmcid(&mut self, alloc: Global, number: &str) -> Result<(), Memory>
        ensures ok { OnOk result (HasSerials (serials_with (codes "pmcid") number.now self.old)
            self.old self.new) }
        ensures err { OnErr result (HasSerials (own_serials self.old) self.old self.new) }
    {
        self.set_keyed_serial_number(alloc, "pmcid", number)
    }
}
