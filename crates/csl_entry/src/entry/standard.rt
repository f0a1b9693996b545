//! The standard variables of an entry (CSL 1.0.2, Appendix IV: Variables, Standard Variables).

ghost use Rattle.std.specs.Prelude.{◌≡◌, IfOk, map, option_and_then, option_copied, option_map, Some};
ghost use Rattle.csl_entry.specs.Answers.{cow_view};
ghost use Rattle.csl_entry.specs.Answers as spec;
ghost use Rattle.csl_entry.specs.CitationLabel.{label};
ghost use Rattle.csl_entry.specs.EntryStandard.{own_location, own_publisher, own_title, press_name, press_place, repository, in_form, language_answer, standard_of, verbatim_chunk, web_address};
ghost use Rattle.csl_entry.specs.LentText.{lent_chunks};
ghost use Rattle.lit_model.specs.declared.text.ChunkKind.TheVariants.{Normal};
ghost use Rattle.lit_model.specs.Select.{clause_view};
ghost use Rattle.lit_model.specs.Text.{chunks};

use crate::entry::chunk::one_chunk;
use crate::entry::language::csl_language;
use crate::label::citation_label::Alphanumerical;
use crate::lent_text::LentText;
use csl_elements::StandardVariable;
use lit_model::select::{event, volume_title};
use lit_model::{
    Bind, ChunkKind, ChunkedString, Clause, Entry, EntryType, FormatString, LanguageIdentifier,
    LongShortForm, Memory, Publisher, QualifiedUrl,
};
use std::alloc::Global;
use std::borrow::Cow;

static REPOSITORY: [Clause<'static>; 1] = [Clause {
    own: &[],
    fields: &[],
    parent: Some(&[EntryType::Repository]),
    bind: Bind::Parent,
}];

/// Selects the first parent that is a repository.
fn repository() -> &'static [Clause<'static>]
    ensures { map clause_view result.now ≡ repository }
{
    &REPOSITORY
}

/// Returns the entry's answer to a standard variable (CSL 1.0.2, Appendix IV: Variables), in the
/// requested form. `TitleShort` and `ContainerTitleShort` are always in the short form. A format
/// string of the entry is borrowed, and any other text is new.
pub(crate) fn standard_variable(
    alloc: Global,
    entry: &Entry,
    form: LongShortForm,
    variable: StandardVariable,
) -> Result<Option<Cow<'_, ChunkedString>>, Memory>
    ensures { IfOk result (λ found. option_map (cow_view chunks) found
        ≡ standard_of entry.now form variable) }
{
    match variable {
        StandardVariable::Abstract => Ok(in_form(entry.map(|work| work.abstract_.as_ref()), form)),
        StandardVariable::Annote => Ok(in_form(entry.map(|work| work.note.as_ref()), form)),
        StandardVariable::Archive => Ok(in_form(entry.map(|work| work.archive.as_ref()), form)),
        StandardVariable::ArchiveLocation => Ok(in_form(entry.archive_location(), form)),
        StandardVariable::Authority => Ok(in_form(entry.organization(), form)),
        StandardVariable::CallNumber => Ok(in_form(entry.call_number(), form)),
        StandardVariable::CitationKey => verbatim_chunk(alloc, Some(entry.key())),
        StandardVariable::CitationLabel => label_answer(alloc, entry),
        StandardVariable::CollectionTitle => Ok(in_form(title_of(entry.get_collection()), form)),
        StandardVariable::ContainerTitle => Ok(in_form(title_of(entry.get_container()), form)),
        StandardVariable::ContainerTitleShort => {
            Ok(in_form(title_of(entry.get_container()), LongShortForm::Short))
        }
        StandardVariable::Dimensions => Ok(in_form(entry.runtime(), form)),
        StandardVariable::DOI => verbatim_chunk(alloc, entry.doi()),
        StandardVariable::Event | StandardVariable::EventTitle => {
            Ok(in_form(title_of(entry.bound_select(event())), form))
        }
        StandardVariable::EventPlace => Ok(in_form(location_of(entry.bound_select(event())), form)),
        StandardVariable::Genre => Ok(in_form(entry.map(|work| work.genre.as_ref()), form)),
        StandardVariable::ISBN => verbatim_chunk(alloc, entry.isbn()),
        StandardVariable::ISSN => verbatim_chunk(alloc, entry.issn()),
        StandardVariable::Language => language_answer(
            alloc,
            entry.map(|work| work.language.as_ref()),
        ),
        StandardVariable::Note => Ok(in_form(entry.note(), form)),
        StandardVariable::OriginalPublisher => {
            Ok(in_form(press_name(publisher_of(entry.get_original())), form))
        }
        StandardVariable::OriginalPublisherPlace => {
            Ok(in_form(press_place(publisher_of(entry.get_original())), form))
        }
        StandardVariable::OriginalTitle => Ok(in_form(title_of(entry.get_original()), form)),
        StandardVariable::PMCID => verbatim_chunk(alloc, entry.pmcid()),
        StandardVariable::PMID => verbatim_chunk(alloc, entry.pmid()),
        StandardVariable::Publisher => Ok(in_form(
            press_name(entry.map(|work| work.publisher.as_ref())),
            form,
        )),
        StandardVariable::PublisherPlace => Ok(in_form(
            press_place(entry.map(|work| work.publisher.as_ref())),
            form,
        )),
        StandardVariable::Source => Ok(in_form(title_of(entry.bound_select(repository())), form)),
        StandardVariable::Title => Ok(in_form(entry.title(), form)),
        StandardVariable::TitleShort => Ok(in_form(entry.title(), LongShortForm::Short)),
        StandardVariable::URL => verbatim_chunk(alloc, web_address(entry.url_any())),
        StandardVariable::VolumeTitle => {
            Ok(in_form(title_of(entry.bound_select(volume_title())), form))
        }
        StandardVariable::ArchiveCollection
        | StandardVariable::ArchivePlace
        | StandardVariable::Division
        | StandardVariable::Jurisdiction
        | StandardVariable::Keyword
        | StandardVariable::License
        | StandardVariable::Medium
        | StandardVariable::PartTitle
        | StandardVariable::References
        | StandardVariable::ReviewedGenre
        | StandardVariable::ReviewedTitle
        | StandardVariable::Scale
        | StandardVariable::Status
        | StandardVariable::YearSuffix => Ok(None),
    }
}

/// Lends the entry's answer to a standard variable: a text that the entry holds in one piece is
/// not copied.
pub(crate) fn lent_text(
    alloc: Global,
    entry: &Entry,
    form: LongShortForm,
    variable: StandardVariable,
) -> Result<Option<LentText<'_>>, Memory>
    ensures { IfOk result (λ found. option_map lent_chunks found
        ≡ standard_of entry.now form variable) }
{
    match variable {
        StandardVariable::CitationKey => Ok(verbatim(Some(entry.key()))),
        StandardVariable::DOI => Ok(verbatim(entry.doi())),
        StandardVariable::ISBN => Ok(verbatim(entry.isbn())),
        StandardVariable::ISSN => Ok(verbatim(entry.issn())),
        StandardVariable::PMCID => Ok(verbatim(entry.pmcid())),
        StandardVariable::PMID => Ok(verbatim(entry.pmid())),
        StandardVariable::URL => Ok(verbatim(web_address(entry.url_any()))),
        _ => match standard_variable(alloc, entry, form, variable)? {
            Some(text) => Ok(Some(LentText::Chunks(text))),
            None => Ok(None),
        },
    }
}

/// The text as one chunk that no style changes, if there is a text, borrowed from the entry.
fn verbatim(text: Option<&str>) -> Option<LentText<'_>>
    ensures { option_map lent_chunks result ≡ verbatim_chunk (option_copied text.entry) }
{
    Some(LentText::Verbatim(text?))
}

/// The text in the requested form, borrowed from the entry.
fn in_form(text: Option<&FormatString>, form: LongShortForm) -> Option<Cow<'_, ChunkedString>>
    ensures { option_map (cow_view chunks) result ≡ in_form form (option_copied text.entry) }
{
    Some(Cow::Borrowed(text?.select(form)))
}

/// The text as one chunk that no style changes, if there is a text.
fn verbatim_chunk<'t>(
    alloc: Global,
    text: Option<&str>,
) -> Result<Option<Cow<'t, ChunkedString>>, Memory>
    ensures { IfOk result (λ found. option_map (cow_view chunks) found
        ≡ verbatim_chunk (option_copied text.entry)) }
{
    match text {
        None => Ok(None),
        Some(text) => {
            let text = String::from_str(alloc, text)?;
            let piece = one_chunk(alloc, text, ChunkKind::Verbatim)?;
            Ok(Some(Cow::Owned(piece)))
        }
    }
}

/// The language as one chunk, if there is a language.
fn language_answer<'t>(
    alloc: Global,
    language: Option<&LanguageIdentifier>,
) -> Result<Option<Cow<'t, ChunkedString>>, Memory>
    ensures { IfOk result (λ found. option_map (cow_view chunks) found
        ≡ language_answer (option_copied language.entry)) }
{
    match language {
        None => Ok(None),
        Some(language) => {
            let text = csl_language(alloc, language)?;
            let piece = one_chunk(alloc, text, ChunkKind::Normal)?;
            Ok(Some(Cow::Owned(piece)))
        }
    }
}

/// The label of an entry as one chunk.
fn label_answer<'t>(alloc: Global, entry: &Entry) -> Result<Option<Cow<'t, ChunkedString>>, Memory>
    ensures { IfOk result (λ found. option_map (cow_view chunks) found
        ≡ Some (spec.one_chunk Normal (label 3 entry.now))) }
{
    let text = Alphanumerical::new().citation(alloc, entry)?;
    let label = one_chunk(alloc, text, ChunkKind::Normal)?;
    Ok(Some(Cow::Owned(label)))
}

/// The title of a work, if there is a work and it has one.
fn title_of(work: Option<&Entry>) -> Option<&FormatString>
    ensures { option_copied result ≡ option_and_then own_title (option_copied work.entry) }
{
    work?.title.as_ref()
}

/// The place of a work, if there is a work and it has one.
fn location_of(work: Option<&Entry>) -> Option<&FormatString>
    ensures { option_copied result ≡ option_and_then own_location (option_copied work.entry) }
{
    work?.location.as_ref()
}

/// The publisher of a work, if there is a work and it has one.
fn publisher_of(work: Option<&Entry>) -> Option<&Publisher>
    ensures { option_copied result ≡ option_and_then own_publisher (option_copied work.entry) }
{
    work?.publisher.as_ref()
}

/// The name of a publisher, if there is a publisher and it has one.
fn press_name(press: Option<&Publisher>) -> Option<&FormatString>
    ensures { option_copied result ≡ press_name (option_copied press.entry) }
{
    press?.name.as_ref()
}

/// The place of a publisher, if there is a publisher and it has one.
fn press_place(press: Option<&Publisher>) -> Option<&FormatString>
    ensures { option_copied result ≡ press_place (option_copied press.entry) }
{
    press?.location.as_ref()
}

/// The text of an address, if there is an address.
fn web_address(url: Option<&QualifiedUrl>) -> Option<&str>
    ensures { option_copied result ≡ web_address (option_copied url.entry) }
{
    Some(url?.value.as_str())
}
