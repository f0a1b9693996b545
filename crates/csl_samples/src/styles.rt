//! The built-in styles.

ghost use Rattle.std.specs.Prelude.{◌≡◌, IfOk, map};
ghost use Rattle.csl_elements.specs.NamesOptions.{partial_options};
ghost use Rattle.csl_elements.specs.Node.{node, no_nodes};
ghost use Rattle.csl_elements.specs.View.{view_node, view_child, view_layout, view_nodes};
ghost use Rattle.csl_elements.specs.View.{a_name, a_substitute};
ghost use Rattle.csl_samples.specs.Styles as spec;

use crate::english::english;
use csl_style::{
    Affixes, Date, DateAnyForm, DatePart, DatePartName, DateVariable, Formatting, Group,
    InheritableNameOptions, Label, Layout, LayoutRenderingElement, Name, NameAnd, NameAsSortOrder,
    NameForm, NameVariable, Names, NamesChild, Number, NumberOrPageVariable, NumberVariable,
    PageVariable, StandardVariable, Style, StyleError, StyleSettings, Substitute, Text, Variable,
};
use lit_model::Memory;
use std::alloc::Global;

/// A built-in style.
#[derive(Clone, Copy)]
pub enum BuiltInStyle {
    /// The authors' family names and the year, in parentheses.
    AuthorDate,
    /// A full reference, as in a list of references.
    Reference,
}

impl BuiltInStyle {
    /// The built-in style with this name, if there is one.
    pub fn of_name(name: &str) -> Option<BuiltInStyle>
        ensures { result ≡ spec.named_style name.now }
    {
        match name {
            "author-date" => Some(BuiltInStyle::AuthorDate),
            "reference" => Some(BuiltInStyle::Reference),
            _ => None,
        }
    }

    /// The style. It has a citation layout, default settings, the English locale, and no macros.
    pub fn style(self, alloc: Global) -> Result<Style, Memory>
        ensures { IfOk result (spec.IsBuiltInStyle self) }
    {
        let citation = layout(alloc, self)?;
        let locale = english(alloc)?;
        let locales = vec![in alloc; locale]?;
        let settings = StyleSettings::default();
        match Style::new(alloc, settings, Vec::new(alloc), citation, None, locales) {
            Ok(style) => Ok(style),
            Err(StyleError::Memory) => Err(Memory),
            // The style has no macros, so no cycle, and it sets no page format.
            Err(_) => unreachable!(),
        }
    }
}

/// A group of two nodes with a space between them.
#[tactic(auto, using(csl_elements::proofs::Rolled::group_made))]
fn space_group(
    alloc: Global,
    first: LayoutRenderingElement,
    second: LayoutRenderingElement,
) -> Result<LayoutRenderingElement, Memory>
    ensures { IfOk result (λ made. view_node made ≡ spec.space_group (view_node first)
        (view_node second)) }
{
    let children = vec![in alloc; first, second]?;
    Ok(Group::delimited(alloc, " ", children)?.into())
}

/// Name options with the word `and` before the last name, and with this form and order.
fn joined_by_and(form: Option<NameForm>, order: Option<NameAsSortOrder>) -> InheritableNameOptions
    ensures { partial_options result ≡ spec.joined_by_and form order }
{
    InheritableNameOptions {
        and: Some(NameAnd::Text),
        form,
        name_as_sort_order: order,
        ..InheritableNameOptions::default()
    }
}

/// A `cs:name` with only these options.
fn name_by(alloc: Global, options: InheritableNameOptions) -> NamesChild
    ensures { view_child result ≡ a_name (spec.name_by (partial_options options)) }
{
    Name {
        options,
        ..Name::new(alloc)
    }
    .into()
}

/// A `cs:names` of one variable, with these children.
#[tactic(auto, using(csl_elements::proofs::Rolled::names_made))]
fn persons_by(
    alloc: Global,
    variable: NameVariable,
    children: Vec<NamesChild>,
) -> Result<LayoutRenderingElement, Memory>
    ensures { IfOk result (λ made. view_node made
        ≡ spec.persons_by variable (map view_child children.items)) }
{
    let variables = vec![in alloc; variable]?;
    Ok(Names {
        children,
        ..Names::new(alloc, variables)
    }
    .into())
}

/// The authors' family names.
fn short_authors(alloc: Global) -> Result<LayoutRenderingElement, Memory>
    ensures { IfOk result (λ made. view_node made ≡ spec.short_authors) }
{
    let name = name_by(alloc, joined_by_and(Some(NameForm::Short), None));
    let children = vec![in alloc; name]?;
    persons_by(alloc, NameVariable::Author, children)
}

/// The year of issue.
fn year(alloc: Global) -> Result<LayoutRenderingElement, Memory>
    ensures { IfOk result (λ made. view_node made ≡ spec.year) }
{
    let parts = vec![in alloc; DatePart::new(DatePartName::Year)]?;
    Ok(Date::new(DateVariable::Issued, parts).into())
}

/// The authors and the year in parentheses.
#[tactic(auto, using(csl_elements::proofs::Rolled::group_made))]
fn author_date(alloc: Global) -> Result<LayoutRenderingElement, Memory>
    ensures { IfOk result (λ made. view_node made ≡ spec.author_date) }
{
    let authors = short_authors(alloc)?;
    let year = year(alloc)?;
    let children = vec![in alloc; authors, year]?;
    let affixes = Affixes::around(alloc, "(", ")")?;
    Ok(Group {
        affixes,
        ..Group::delimited(alloc, ", ", children)?
    }
    .into())
}

/// The editors. As a substitute, they are written like the names that they replace.
fn editors(alloc: Global) -> Result<LayoutRenderingElement, Memory>
    ensures { IfOk result (λ made. view_node made ≡ spec.editors) }
{
    persons_by(alloc, NameVariable::Editor, Vec::new(alloc))
}

/// The substitute of the authors: the editors.
fn instead_of_authors(alloc: Global) -> Result<NamesChild, Memory>
    ensures { IfOk result (λ made. view_child made ≡ a_substitute (node spec.editors no_nodes)) }
{
    let editors = editors(alloc)?;
    let children = vec![in alloc; editors]?;
    Ok(NamesChild::Substitute(Substitute { children }))
}

/// The authors, the first with the family name first. The editors are their substitute.
fn authors(alloc: Global) -> Result<LayoutRenderingElement, Memory>
    ensures { IfOk result (λ made. view_node made ≡ spec.authors) }
{
    let instead = instead_of_authors(alloc)?;
    let name = name_by(alloc, joined_by_and(None, Some(NameAsSortOrder::First)));
    let children = vec![in alloc; name, instead]?;
    persons_by(alloc, NameVariable::Author, children)
}

/// The title in quotes.
fn quoted_title() -> LayoutRenderingElement
    ensures { view_node result ≡ spec.quoted_title }
{
    let title = Variable::Standard(StandardVariable::Title);
    Text {
        quotes: true,
        ..Text::variable(title)
    }
    .into()
}

/// The title of the container in italics.
fn container_title() -> LayoutRenderingElement
    ensures { view_node result ≡ spec.container_title }
{
    let title = Variable::Standard(StandardVariable::ContainerTitle);
    Text {
        formatting: Formatting::italic(),
        ..Text::variable(title)
    }
    .into()
}

/// The volume with its label.
fn volume(alloc: Global) -> Result<LayoutRenderingElement, Memory>
    ensures { IfOk result (λ made. view_node made ≡ spec.volume) }
{
    let volume = NumberOrPageVariable::Number(NumberVariable::Volume);
    let label = Label::short(volume).into();
    space_group(alloc, label, Number::new(volume).into())
}

/// The pages with their label.
fn page(alloc: Global) -> Result<LayoutRenderingElement, Memory>
    ensures { IfOk result (λ made. view_node made ≡ spec.page) }
{
    let label = Label::short(NumberOrPageVariable::Page(PageVariable::Page)).into();
    let pages = Text::variable(Variable::Page(PageVariable::Page)).into();
    space_group(alloc, label, pages)
}

/// The month and the year of issue.
fn month_and_year(alloc: Global) -> Result<LayoutRenderingElement, Memory>
    ensures { IfOk result (λ made. view_node made ≡ spec.month_and_year) }
{
    let month = DatePart {
        form: Some(DateAnyForm::Long),
        ..DatePart::new(DatePartName::Month)
    };
    let parts = vec![in alloc; month, DatePart::new(DatePartName::Year)]?;
    let space = String::from_str(alloc, " ")?;
    Ok(Date {
        delimiter: Some(space),
        ..Date::new(DateVariable::Issued, parts)
    }
    .into())
}

/// The elements of a work's description, in order.
fn description_elements(alloc: Global) -> Result<Vec<LayoutRenderingElement>, Memory>
    ensures { IfOk result (λ made. view_nodes made.items ≡ spec.description_elements) }
{
    let authors = authors(alloc)?;
    let volume = volume(alloc)?;
    let page = page(alloc)?;
    let date = month_and_year(alloc)?;
    Ok(vec![in alloc;
        authors,
        quoted_title(),
        container_title(),
        volume,
        page,
        date,
    ]?)
}

/// The description of a work, with a period at its end.
#[tactic(auto, using(csl_elements::proofs::Rolled::group_made))]
fn description(alloc: Global) -> Result<LayoutRenderingElement, Memory>
    ensures { IfOk result (λ made. view_node made ≡ spec.description) }
{
    let children = description_elements(alloc)?;
    let affixes = Affixes::after(alloc, ".")?;
    Ok(Group {
        affixes,
        ..Group::delimited(alloc, ", ", children)?
    }
    .into())
}

/// The digital object identifier after the address of its resolver.
fn link(alloc: Global) -> Result<LayoutRenderingElement, Memory>
    ensures { IfOk result (λ made. view_node made ≡ spec.link) }
{
    let affixes = Affixes::before(alloc, "https://doi.org/")?;
    Ok(Text {
        affixes,
        ..Text::variable(Variable::Standard(StandardVariable::DOI))
    }
    .into())
}

/// The resolver's address and the digital object identifier, after a space.
#[tactic(auto, using(csl_elements::proofs::Rolled::group_made))]
fn address(alloc: Global) -> Result<LayoutRenderingElement, Memory>
    ensures { IfOk result (λ made. view_node made ≡ spec.address) }
{
    let link = link(alloc)?;
    let children = vec![in alloc; link]?;
    let affixes = Affixes::before(alloc, " ")?;
    Ok(Group {
        affixes,
        ..Group::new(children)
    }
    .into())
}

/// The elements of a style's layout, in order.
fn elements(alloc: Global, style: BuiltInStyle) -> Result<Vec<LayoutRenderingElement>, Memory>
    ensures { IfOk result (λ made. view_nodes made.items ≡ spec.elements_of style) }
{
    match style {
        BuiltInStyle::AuthorDate => {
            let cite = author_date(alloc)?;
            Ok(vec![in alloc; cite]?)
        }
        BuiltInStyle::Reference => {
            let description = description(alloc)?;
            let address = address(alloc)?;
            Ok(vec![in alloc; description, address]?)
        }
    }
}

/// The citation layout of a style.
fn layout(alloc: Global, style: BuiltInStyle) -> Result<Layout, Memory>
    ensures { IfOk result (λ made. view_layout made ≡ spec.built_in_layout style) }
{
    Ok(Layout::new(elements(alloc, style)?))
}
