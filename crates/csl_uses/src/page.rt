//! A reference list as a whole web page: texts are escaped, and only web addresses are links.

ghost use Rattle.std.specs.Prelude.{◌≡◌, ◌++◌, IfOk, List, OnOk, codes, filter, not, string_bytes};
ghost use Rattle.std.specs.List.{All};
ghost use Rattle.std.specs.Str.{NonePass, chars};
ghost use Rattle.csl.specs.Literature.WebAddress.{IsWebAddress};
ghost use Rattle.csl.specs.Tree.Links.{addresses};
ghost use Rattle.csl.specs.Tree.Tokens.{Token, tokens, leaf_text};
ghost use Rattle.csl.specs.Tree.Write.{text_in_format};
ghost use Rattle.csl.specs.Tree.declared.elem.BufWriteFormat.TheVariants.{Html};
ghost use Rattle.csl_finish.specs.Links.{IsWebAddressAt};
ghost use Rattle.csl_uses.specs.Page as spec;
ghost use Rattle.csl_uses.specs.Page.{answers_of};

use csl::entry::SpeculativeCiteProperties;
use csl::literature::{
    ChunkedString, Date, LongShortForm, MaybeTyped, Numeric, PageRanges, Person,
};
use csl::style::{
    Affixes, DateVariable, Display, FontVariant, FontWeight, Formatting, Group, Kind, Layout,
    LayoutRenderingElement, NameVariable, Names, Number, NumberVariable, PageVariable,
    StandardVariable, Style, StyleSettings, Text,
};
use csl::{
    BufWriteFormat, CitationNumber, CiteProperties, DisambiguateState, ElemChildren, EntryLike,
    Error, Memory, english,
};
use csl_finish::{with_links_to, with_web_links};
use std::alloc::Global;
use std::borrow::{Cow, CowStr};

/// The part of the page before the list. A line with boxes that float is a flex box, which ignores
/// floats, so its number is beside its entry and keeps its width. Long words wrap, and marks that
/// pile up stay in their line. Authors, title and address are each a `span` or an `a`, so a letter
/// that is written from right to left turns nothing outside.
const HEAD: &str = r#"<!doctype html>
<html lang="en">
<head>
<meta charset="utf-8">
<title>References</title>
<style>
.entry { margin: 0.5em 0; overflow: clip; overflow-wrap: anywhere; }
.entry:has(> [style^="float"]) { display: flex; gap: 1em; }
.entry > div { min-width: 0; }
.entry > [style^="float: left"] { flex: none; }
.entry span, .entry a { unicode-bidi: isolate; }
</style>
</head>
<body>
<h1>References</h1>
"#;

/// The part of the page after the list.
const TAIL: &str = "</body>\n</html>\n";

/// A web page as somebody described it: its title and its address may be any text.
#[derive(Drop)]
pub struct WebPage {
    /// The key that it is cited by.
    pub key: String,
    /// The author.
    pub author: Person,
    /// The title.
    pub title: ChunkedString,
    /// The address.
    pub address: ChunkedString,
}

impl EntryLike for WebPage {
    ghost use Rattle.std.specs.Prelude.{None};

    ghost answers = { answers_of };

    ghost key_text = { λ page. string_bytes page.key };

    ghost english = { λ _. None };

    fn resolve_number_variable(
        &self,
        _alloc: Global,
        _variable: NumberVariable,
    ) -> Result<Option<MaybeTyped<Cow<'_, Numeric>>>, Memory> {
        Ok(None)
    }

    fn resolve_page_variable(
        &self,
        _alloc: Global,
        _variable: PageVariable,
    ) -> Result<Option<MaybeTyped<PageRanges>>, Memory> {
        Ok(None)
    }

    fn resolve_standard_variable(
        &self,
        _alloc: Global,
        _form: LongShortForm,
        variable: StandardVariable,
    ) -> Result<Option<Cow<'_, ChunkedString>>, Memory> {
        match variable {
            StandardVariable::Title => Ok(Some(Cow::Borrowed(&self.title))),
            StandardVariable::URL => Ok(Some(Cow::Borrowed(&self.address))),
            _ => Ok(None),
        }
    }

    fn resolve_name_variable(
        &self,
        alloc: Global,
        variable: NameVariable,
    ) -> Result<Vec<Cow<'_, Person>>, Memory> {
        match variable {
            NameVariable::Author => {
                let persons = vec![in alloc; Cow::Borrowed(&self.author)]?;
                Ok(persons)
            }
            _ => Ok(Vec::new(alloc)),
        }
    }

    fn resolve_date_variable(
        &self,
        _alloc: Global,
        _variable: DateVariable,
    ) -> Result<Option<Cow<'_, Date>>, Memory> {
        Ok(None)
    }

    fn matches_entry_type(&self, kind: Kind) -> bool {
        matches!(kind, Kind::Webpage)
    }

    fn is_english(&self) -> Option<bool> {
        None
    }

    fn key(&self) -> CowStr<'_, Global> {
        CowStr::Borrowed(self.key.as_str())
    }
}

/// A web page with this author, title and address. The address is also its key.
fn web_page(alloc: Global, author: Person, title: &str, address: &str) -> Result<WebPage, Error> {
    let key = String::from_str(alloc, address)?;
    let title = ChunkedString::plain(alloc, title)?;
    let address = ChunkedString::plain(alloc, address)?;
    Ok(WebPage {
        key,
        author,
        title,
        address,
    })
}

/// Three web pages. The title of the second is a script, and so is the address of the third, whose
/// title would turn the direction of writing to the end of its line.
pub fn web_pages(alloc: Global) -> Result<Vec<WebPage>, Error> {
    let mut pages = Vec::with_capacity(alloc, 3)?;

    let author = Person::new(alloc, "Berners-Lee", "Tim")?;
    let title = "Cool URIs don't change";
    let address = "https://www.w3.org/Provider/Style/URI";
    pages.push(web_page(alloc, author, title, address)?)?;

    let author = Person::institution(alloc, "Mallory & Sons")?;
    let title = "Cats & dogs <script>alert(1)</script>";
    let address = "https://example.org/?cats=1&dogs=2";
    pages.push(web_page(alloc, author, title, address)?)?;

    let author = Person::institution(alloc, "Mallory & Sons")?;
    let title = "A \u{2069}\u{202E}prize";
    let address = "javascript:alert(2)";
    pages.push(web_page(alloc, author, title, address)?)?;
    Ok(pages)
}

/// The number of an entry in brackets, in the left margin.
fn number(alloc: Global) -> Result<LayoutRenderingElement, Error> {
    let number = Number {
        affixes: Affixes::around(alloc, "[", "]")?,
        display: Some(Display::LeftMargin),
        ..Number::new(NumberVariable::CitationNumber.into())
    };
    Ok(number.into())
}

/// The authors in small capitals, the title in italics and the address in a light weight, to the
/// right of the number. A text with a formatting is an element of its own.
fn description(alloc: Global) -> Result<LayoutRenderingElement, Error> {
    let authors = vec![in alloc; NameVariable::Author]?;
    let formatting = Formatting {
        font_variant: Some(FontVariant::SmallCaps),
        ..Formatting::default()
    };
    let authors = Names {
        formatting,
        ..Names::new(alloc, authors)
    };
    let title = Text {
        formatting: Formatting::italic(),
        ..Text::variable(StandardVariable::Title.into())
    };
    let formatting = Formatting {
        font_weight: Some(FontWeight::Light),
        ..Formatting::default()
    };
    let address = Text {
        formatting,
        ..Text::variable(StandardVariable::URL.into())
    };
    let parts = vec![in alloc; authors.into(), title.into(), address.into()]?;
    let affixes = Affixes::after(alloc, ".")?;
    let description = Group {
        affixes,
        display: Some(Display::RightInline),
        ..Group::delimited(alloc, ", ", parts)?
    };
    Ok(description.into())
}

/// A style of numbers: `[1]` in a cite, and before each line of the bibliography.
///
/// # Errors
/// [`Error::Memory`]: out of memory.
/// [`Error::Style`]: the style is rejected.
pub fn number_style(alloc: Global) -> Result<Style, Error> {
    let citation = vec![in alloc; number(alloc)?]?;
    let bibliography = vec![in alloc; number(alloc)?, description(alloc)?]?;
    let locales = vec![in alloc; english(alloc)?]?;
    let settings = StyleSettings::default();
    Ok(Style::new(
        alloc,
        settings,
        Vec::new(alloc),
        Layout::new(citation),
        Some(Layout::new(bibliography)),
        locales,
    )?)
}

/// The line of the entry at this place of the list. It is empty if the style has no bibliography.
fn list_line<T: EntryLike>(
    alloc: Global,
    style: &Style,
    entry: &T,
    place: usize,
) -> Result<ElemChildren, Error>
    ensures text { IfOk result (λ line. leaf_text (tokens line)
        ≡ leaf_text (spec.numbered_line style.now place (T.answers entry.now))) }
    ensures web { IfOk result (λ line. All IsWebAddress (addresses (tokens line))) }
{
    let Ok(place) = u32::try_from(place) else {
        return Err(Error::NotNumeric);
    };
    let Some(number) = CitationNumber::new(place) else {
        return Err(Error::NotNumeric);
    };
    let first = CiteProperties::first(DisambiguateState::None);
    let cite = CiteProperties {
        certain: first.certain,
        speculative: SpeculativeCiteProperties {
            citation_number: number,
            ..first.speculative
        },
    };
    match csl::bibliography_entry(alloc, style, entry, &cite)? {
        Some(rendered) => Ok(with_web_links(alloc, rendered.content)?),
        None => Ok(ElemChildren::new(alloc)),
    }
}

/// Whether a character turns the direction of writing until another one ends that, or is such an
/// end. An end also closes the isolate that a browser opens for an element.
fn is_direction_control(c: char) -> bool
    ensures { result ≡ spec.is_direction_control c }
{
    matches!(c, '\u{202A}'..='\u{202E}' | '\u{2066}'..='\u{2069}')
}

/// Drops the direction controls. An address has none either (RFC 3987, 4.1).
fn drop_direction_controls(html: &mut String)
    ensures { chars (string_bytes html.new)
        ≡ filter (λ c. not (spec.is_direction_control c)) (chars (string_bytes html.old)) }
{
    html.retain(|c| !is_direction_control(c));
}

/// The line of the entry at this place of the list as HTML, with links to these hosts alone and
/// without direction controls.
///
/// # Errors
/// [`Error::Memory`]: out of memory, here or in the entry.
/// [`Error::NotNumeric`]: there is no citation number for this place.
#[tactic(auto, using(crate::proofs::Directions::none_left))]
pub fn line_with_links_to<T: EntryLike>(
    alloc: Global,
    style: &Style,
    entry: &T,
    place: usize,
    hosts: &[&str],
) -> Result<String, Error>
    ensures printed { IfOk result (λ html. (line : List Token)
        × spec.IsLineWith (IsWebAddressAt hosts.now) style.now place (T.answers entry.now) line
        × spec.IsStripped (text_in_format Html line) (string_bytes html)) }
    ensures directions { IfOk result (λ html. NonePass spec.is_direction_control
        (chars (string_bytes html))) }
{
    let line = list_line(alloc, style, entry, place)?;
    let line = with_links_to(alloc, line, hosts)?;
    let mut line = line.to_text(alloc, BufWriteFormat::Html)?;
    drop_direction_controls(&mut line);
    Ok(line)
}

/// Adds the line of an entry to a page, in an element of its own.
fn push_entry(html: &mut String, line: &str) -> Result<(), Error>
    ensures { OnOk result (string_bytes html.new ≡ string_bytes html.old
        ++ (codes "<div class=\"entry\">" ++ (line.now ++ codes "</div>\n"))) }
{
    html.push_str("<div class=\"entry\">")?;
    html.push_str(line)?;
    html.push_str("</div>\n")?;
    Ok(())
}

/// A whole page of HTML: the bibliography of these entries in their order, numbered from 1, with
/// links to web addresses alone and without direction controls.
///
/// # Errors
/// [`Error::Memory`]: out of memory, here or in an entry.
/// [`Error::NotNumeric`]: there are more entries than citation numbers.
#[tactic(auto, using(crate::proofs::Directions::none_left))]
pub fn page<T: EntryLike>(alloc: Global, style: &Style, entries: &[T]) -> Result<String, Error>
    ensures printed { IfOk result (λ html. (lines : List (List Token))
        × spec.AreWebLines T.answers style.now entries.now lines
        × spec.IsStripped (spec.page_html HEAD.now lines TAIL.now) (string_bytes html)) }
    ensures directions { IfOk result (λ html. NonePass spec.is_direction_control
        (chars (string_bytes html))) }
{
    let mut html = String::from_str(alloc, HEAD)?;
    for (place, entry) in entries.iter().enumerate() {
        let line = list_line(alloc, style, entry, place)?;
        let line = line.to_text(alloc, BufWriteFormat::Html)?;
        push_entry(&mut html, line.as_str())?;
    }
    html.push_str(TAIL)?;
    drop_direction_controls(&mut html);
    Ok(html)
}
