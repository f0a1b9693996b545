//! The built-in entries.

ghost use Rattle.std.specs.Prelude.{◌≡◌, ◌∷◌, [], Some, None, Err, IfOk, map, codes};
ghost use Rattle.lit_model.specs.Person.{person_view, person_of};
ghost use Rattle.lit_model.specs.Source.{serials, address_of};
ghost use Rattle.csl_samples.specs.Entries as spec;
ghost use Rattle.csl_samples.specs.declared.entries.AddressError.TheVariants as errors;

use lit_model::{
    Date, Entry, EntryType, FormatString, MaybeTyped, Memory, Numeric, PageRanges, PageRangesPart,
    Person, Publisher, QualifiedUrl, SerialNumber,
};
use std::alloc::Global;
use std::collections::BTreeMap;
use url::{ParseError, Url};

/// A built-in entry.
#[derive(Clone, Copy)]
pub enum BuiltIn {
    /// A book.
    CrazyRich,
    /// A journal article with its pages.
    QuantizedVortex,
    /// A journal article by three authors.
    Dependence,
    /// A blog article with its address.
    Feminism,
}

impl BuiltIn {
    /// The built-in entry with this key, if there is one.
    pub fn of_key(key: &str) -> Option<BuiltIn>
        ensures { result ≡ spec.named_built_in key.now }
    {
        match key {
            "crazy-rich" => Some(BuiltIn::CrazyRich),
            "quantized-vortex" => Some(BuiltIn::QuantizedVortex),
            "dependence" => Some(BuiltIn::Dependence),
            "feminism" => Some(BuiltIn::Feminism),
            _ => None,
        }
    }

    /// The built-in entry as an [`Entry`].
    pub fn entry(self, alloc: Global) -> Result<Entry, Memory>
        ensures { IfOk result (spec.IsBuiltIn self) }
    {
        match self {
            BuiltIn::CrazyRich => crazy_rich(alloc),
            BuiltIn::QuantizedVortex => quantized_vortex(alloc),
            BuiltIn::Dependence => dependence(alloc),
            BuiltIn::Feminism => feminism(alloc),
        }
    }
}

/// A list of one person with a given name.
fn one_person(alloc: Global, name: &str, given: &str) -> Result<Vec<Person>, Memory>
    ensures { IfOk result (λ v. map person_view v.items ≡ person_of name.now given.now ∷ []) }
{
    let person = Person::new(alloc, name, given)?;
    Ok(vec![in alloc; person]?)
}

/// A serial number that is a digital object identifier (DOI).
fn doi(alloc: Global, number: &str) -> Result<SerialNumber, Memory>
    ensures { IfOk result (λ s. serials s ≡ (codes "doi", number.now) ∷ []) }
{
    let scheme = String::from_str(alloc, "doi")?;
    let number = String::from_str(alloc, number)?;
    let mut numbers = BTreeMap::new(alloc);
    numbers.insert(scheme, number)?;
    Ok(SerialNumber(numbers))
}

/// The reason why a text was not parsed as an address.
#[derive(Clone, Copy)]
enum AddressError {
    /// Out of memory.
    Memory,
    /// The text is not a URL.
    NotAddress,
}

/// Parses a text as an address.
#[tactic(auto, unfolding(crate::specs::Entries::address_from))]
fn address(alloc: Global, text: &str) -> Result<QualifiedUrl, AddressError>
    ensures ok { IfOk result (λ url. Some (address_of url) ≡ spec.address_from text.now) }
    ensures refused { result ≡ Err errors.NotAddress → spec.address_from text.now ≡ None }
{
    match Url::parse(alloc, text) {
        Ok(value) => Ok(QualifiedUrl {
            value,
            visit_date: None,
        }),
        // `Overflow` means that the address has 4 GiB or more.
        Err(ParseError::OutOfMemory | ParseError::Overflow) => Err(AddressError::Memory),
        Err(_) => Err(AddressError::NotAddress),
    }
}

/// The book `Crazy Rich Asians`.
fn crazy_rich(alloc: Global) -> Result<Entry, Memory>
    ensures { IfOk result (spec.IsBuiltIn BuiltIn.CrazyRich) }
{
    let title = FormatString::plain(alloc, "Crazy Rich Asians")?;
    let authors = one_person(alloc, "Kwan", "Kevin")?;
    let publisher = FormatString::plain(alloc, "Anchor Books")?;
    let location = FormatString::plain(alloc, "New York, NY, US")?;
    let mut entry = Entry::new(alloc, "crazy-rich", EntryType::Book)?;
    entry.title = Some(title);
    entry.authors = Some(authors);
    entry.date = Some(Date::of_year(2014));
    entry.publisher = Some(Publisher {
        name: Some(publisher),
        location: None,
    });
    entry.location = Some(location);
    Ok(entry)
}

/// A parent, such as a periodical or a blog, with this title and without a key.
fn parent(alloc: Global, entry_type: EntryType, title: &str) -> Result<Entry, Memory>
    ensures { IfOk result (spec.StandsAlone (spec.only_title entry_type title.now)) }
{
    let title = FormatString::plain(alloc, title)?;
    let mut parent = Entry::new(alloc, "", entry_type)?;
    parent.title = Some(title);
    Ok(parent)
}

/// The journal `Il Nuovo Cimento`.
fn nuovo_cimento(alloc: Global) -> Result<Entry, Memory>
    ensures { IfOk result (spec.StandsAlone spec.nuovo_cimento) }
{
    let mut journal = parent(alloc, EntryType::Periodical, "Il Nuovo Cimento")?;
    journal.issue = Some(MaybeTyped::Typed(Numeric::new(3)));
    journal.volume = Some(MaybeTyped::Typed(Numeric::new(20)));
    Ok(journal)
}

/// The article `Structure of a Quantized Vortex in Boson Systems`.
fn quantized_vortex(alloc: Global) -> Result<Entry, Memory>
    ensures { IfOk result (spec.IsBuiltIn BuiltIn.QuantizedVortex) }
{
    let title = FormatString::plain(alloc, "Structure of a Quantized Vortex in Boson Systems")?;
    let authors = one_person(alloc, "Gross", "E. P.")?;
    let pages = PageRangesPart::Range(Numeric::new(454), Numeric::new(477));
    let ranges = vec![in alloc; pages]?;
    let numbers = doi(alloc, "10.1007/BF02731494")?;
    let journal = nuovo_cimento(alloc)?;
    let parents = vec![in alloc; journal]?;
    let mut entry = Entry::new(alloc, "quantized-vortex", EntryType::Article)?;
    entry.title = Some(title);
    entry.authors = Some(authors);
    entry.date = Date::new(1961, Some(4), None, None, false);
    entry.page_range = Some(MaybeTyped::Typed(PageRanges { ranges }));
    entry.serial_number = Some(numbers);
    entry.parents = parents;
    Ok(entry)
}

/// The journal `ACM Transactions on Programming Languages and Systems`.
fn transactions(alloc: Global) -> Result<Entry, Memory>
    ensures { IfOk result (spec.StandsAlone spec.transactions) }
{
    let title = "ACM Transactions on Programming Languages and Systems";
    let mut journal = parent(alloc, EntryType::Periodical, title)?;
    journal.volume = Some(MaybeTyped::Typed(Numeric::new(9)));
    journal.issue = Some(MaybeTyped::Typed(Numeric::new(3)));
    Ok(journal)
}

/// The authors of the article on dependence graphs.
fn dependence_authors(alloc: Global) -> Result<Vec<Person>, Memory>
    ensures { IfOk result (λ v. Some (map person_view v.items) ≡ spec.dependence.authors) }
{
    let ferrante = Person::new(alloc, "Ferrante", "Jeanne")?;
    let ottenstein = Person::new(alloc, "Ottenstein", "Karl J.")?;
    let warren = Person::new(alloc, "Warren", "Joe D.")?;
    let authors = vec![in alloc; ferrante, ottenstein, warren]?;
    Ok(authors)
}

/// The article `The program dependence graph and its use in optimization`.
fn dependence(alloc: Global) -> Result<Entry, Memory>
    ensures { IfOk result (spec.IsBuiltIn BuiltIn.Dependence) }
{
    let title = "The program dependence graph and its use in optimization";
    let title = FormatString::plain(alloc, title)?;
    let authors = dependence_authors(alloc)?;
    let numbers = doi(alloc, "10.1145/24039.24041")?;
    let journal = transactions(alloc)?;
    let parents = vec![in alloc; journal]?;
    let mut entry = Entry::new(alloc, "dependence", EntryType::Article)?;
    entry.title = Some(title);
    entry.authors = Some(authors);
    entry.date = Date::new(1987, Some(6), None, None, false);
    entry.serial_number = Some(numbers);
    entry.parents = parents;
    Ok(entry)
}

/// The text of the essay's address.
#[tactic(auto, unfolding(crate::specs::Entries::essay_text))]
fn essay_text() -> &'static str
    ensures { result.now ≡ spec.essay_text }
{
    "https://aeon.co/essays/can-you-enjoy-romance-fiction-and-be-a-feminist"
}

/// The address of the essay. The parser accepts its text.
#[tactic(auto, using(crate::proofs::Essay::essay_is_address))]
fn essay_address(alloc: Global) -> Result<QualifiedUrl, Memory>
    ensures { IfOk result (λ url. Some (address_of url) ≡ spec.essay_address) }
{
    match address(alloc, essay_text()) {
        Ok(url) => Ok(url),
        Err(AddressError::Memory) => Err(Memory),
        Err(AddressError::NotAddress) => unreachable!(),
    }
}

/// The article `She swoons to conquer`.
fn feminism(alloc: Global) -> Result<Entry, Memory>
    ensures { IfOk result (spec.IsBuiltIn BuiltIn.Feminism) }
{
    let title = FormatString::plain(alloc, "She swoons to conquer")?;
    let authors = one_person(alloc, "Ungard-Sargon", "Batya")?;
    let editors = one_person(alloc, "Weintraub", "Pam")?;
    let url = essay_address(alloc)?;
    let blog = parent(alloc, EntryType::Blog, "Aeon")?;
    let parents = vec![in alloc; blog]?;
    let mut entry = Entry::new(alloc, "feminism", EntryType::Article)?;
    entry.title = Some(title);
    entry.authors = Some(authors);
    entry.editors = Some(editors);
    entry.date = Date::new(2015, Some(8), Some(24), None, false);
    entry.url = Some(url);
    entry.parents = parents;
    Ok(entry)
}
