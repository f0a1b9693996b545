//! The publisher, the web address, the serial numbers and the language of a work.

ghost use Rattle.std.specs.Prelude.{◌≡◌, [], codes, option_copied, IfOk, OnOk, OnErr};
ghost use Rattle.lit_model.specs.Source.{press_of, press_named, address_of, serials, serial, with_serial, language_of};

use crate::date::Date;
use crate::text::{FormatString, copy_forms, copy_text};
use csl_common::Memory;
use std::alloc::Global;
use std::collections::BTreeMap;
use url::Url;

/// The publisher of a work, and its place.
#[derive(PartialEq, Eq, Drop)]
pub struct Publisher {
    /// The name.
    pub name: Option<FormatString>,
    /// The place.
    pub location: Option<FormatString>,
}

/// A web address.
#[derive(PartialEq, Eq, Drop)]
pub struct QualifiedUrl {
    /// The address.
    pub value: Url,
    /// The date of the visit.
    pub visit_date: Option<Date>,
}

/// The serial numbers of a work, each under the name of its scheme, such as `doi`.
#[derive(PartialEq, Eq, Drop)]
pub struct SerialNumber(pub BTreeMap<String, String>);

/// A language, and a region where it is spoken (BCP 47).
#[derive(PartialEq, Eq, Drop)]
pub struct LanguageIdentifier {
    /// The language, such as `en`.
    pub language: String,
    /// The region, such as `US`.
    pub region: Option<String>,
}

impl SerialNumber {
    /// No numbers.
    pub fn new(alloc: Global) -> SerialNumber
        ensures { serials result ≡ [] }
    {
        SerialNumber(BTreeMap::new(alloc))
    }

    /// Sets the number under the name of a scheme. It replaces the number that the scheme had.
    ///
    /// # Errors
    /// [`Memory`]: out of memory. The numbers are unchanged.
    #[tactic(auto, using(crate::proofs::SerialsSet::serials_set))]
    pub fn set(&mut self, alloc: Global, scheme: &str, number: &str) -> Result<(), Memory>
        ensures ok { OnOk result (serials self.new
            ≡ with_serial scheme.now number.now (serials self.old)) }
        ensures err { OnErr result (serials self.new ≡ serials self.old) }
    {
        let scheme = String::from_str(alloc, scheme)?;
        let number = String::from_str(alloc, number)?;
        self.0.insert(scheme, number)?;
        Ok(())
    }

    /// The number under the name of a scheme, if there is one.
    pub fn get(&self, scheme: &str) -> Option<&str>
        ensures { option_copied result ≡ serial scheme.now self.now }
    {
        match self.0.get(scheme) {
            None => None,
            Some(number) => Some(number.as_str()),
        }
    }

    /// The digital object identifier.
    pub fn doi(&self) -> Option<&str>
        ensures { option_copied result ≡ serial (codes "doi") self.now }
    {
        self.get("doi")
    }

    /// The international standard book number.
    pub fn isbn(&self) -> Option<&str>
        ensures { option_copied result ≡ serial (codes "isbn") self.now }
    {
        self.get("isbn")
    }

    /// The international standard serial number.
    pub fn issn(&self) -> Option<&str>
        ensures { option_copied result ≡ serial (codes "issn") self.now }
    {
        self.get("issn")
    }

    /// The number in PubMed.
    pub fn pmid(&self) -> Option<&str>
        ensures { option_copied result ≡ serial (codes "pmid") self.now }
    {
        self.get("pmid")
    }

    /// The number in PubMed Central.
    pub fn pmcid(&self) -> Option<&str>
        ensures { option_copied result ≡ serial (codes "pmcid") self.now }
    {
        self.get("pmcid")
    }
}

impl Publisher {
    /// A publisher with only a name. The name is one text, without a short form.
    pub fn named(alloc: Global, name: &str) -> Result<Publisher, Memory>
        ensures { IfOk result (λ p. press_of p ≡ press_named name.now) }
    {
        let name = FormatString::plain(alloc, name)?;
        Ok(Publisher {
            name: Some(name),
            location: None,
        })
    }

    /// A copy.
    pub fn clone(&self, alloc: Global) -> Result<Publisher, Memory>
        ensures { IfOk result (λ p. press_of p ≡ press_of self.now) }
    {
        let name = copy_forms(&self.name, alloc)?;
        let location = copy_forms(&self.location, alloc)?;
        Ok(Publisher { name, location })
    }
}

impl QualifiedUrl {
    /// A copy.
    pub fn clone(&self, _alloc: Global) -> Result<QualifiedUrl, Memory>
        ensures { IfOk result (λ u. address_of u ≡ address_of self.now) }
    {
        let value = self.value.clone()?;
        Ok(QualifiedUrl {
            value,
            visit_date: self.visit_date,
        })
    }
}

impl SerialNumber {
    /// A copy.
    pub fn clone(&self, _alloc: Global) -> Result<SerialNumber, Memory>
        ensures { IfOk result (λ s. serials s ≡ serials self.now) }
    {
        let numbers = self.0.clone()?;
        Ok(SerialNumber(numbers))
    }
}

impl LanguageIdentifier {
    /// A copy.
    pub fn clone(&self, alloc: Global) -> Result<LanguageIdentifier, Memory>
        ensures { IfOk result (λ l. language_of l ≡ language_of self.now) }
    {
        let language = String::from_str(alloc, self.language.as_str())?;
        let region = copy_text(&self.region, alloc)?;
        Ok(LanguageIdentifier { language, region })
    }
}
