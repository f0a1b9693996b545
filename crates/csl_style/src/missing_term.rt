//! The terms that a layout asks for and that no locale has (CSL 1.0.2, Terms; Text; Label;
//! Locators; Date; Name: and; Et-al; Formatting: quotes).

ghost use Rattle.std.specs.Prelude.{◌≡◌, [], ◌∷◌, map, Some, IfOk, IfSome, option_map, slice_get};
ghost use Rattle.std.specs.Option.{option_or};
ghost use Rattle.csl_elements.specs.Names.{NamesNode, first_name, view_label};
ghost use Rattle.csl_elements.specs.NamesParts.{names_node, parts_node};
ghost use Rattle.csl_elements.specs.Node.{ExpandedNode, as_substitute_child, expand_substitute_nodes};
ghost use Rattle.csl_elements.specs.View.{view_node, view_nodes, view_names, view_child, view_choose, view_date, view_date_part, view_text};
ghost use Rattle.csl_elements.specs.declared.term.OtherTerm.TheVariants as others;
ghost use Rattle.csl_elements.specs.declared.term.Term.TheVariants as terms;
ghost use Rattle.csl_elements.specs.declared.term.TermForm.TheVariants as forms;
ghost use Rattle.csl_style.specs.Expanded.{macro_env, expanded, expanded_nodes};
ghost use Rattle.csl_style.specs.FoundTerms.{Finds};
ghost use Rattle.csl_style.specs.MissingTerm as spec;

use crate::style::{Scope, Style};
use csl_common::{Memory, Season};
use csl_elements::{
    Choose, Date, DatePart, DatePartName, Label, Layout, LayoutRenderingElement, Locator, NameAnd,
    NameVariable, Names, NamesChild, NamesParts, NumberOrPageVariable, NumberVariable, OtherTerm,
    Term, TermForm, Text, TextTarget, VariablelessLabel,
};
use std::alloc::Global;

/// What is around a node and decides what the node asks for.
#[derive(Clone, Copy)]
pub(crate) struct TermScope {
    /// Whether names write `and` as a word unless they set otherwise.
    and_is_a_word: bool,
    /// Whether the number of quotes around is odd.
    in_quotes: bool,
}

/// Whether no locale has the term in its form or in one that this falls back to.
fn is_missing(style: &Style, asked: (Term, TermForm)) -> bool
    ensures { result ≡ spec.is_missing style.now.locales asked }
{
    style.term(asked.0, asked.1, false).is_none()
}

/// A term that names no variable, in its long form.
fn long_form(term: OtherTerm) -> (Term, TermForm)
    ensures { result ≡ spec.long_form term }
{
    (Term::Other(term), TermForm::Long)
}

/// A list with a term at its end, unless the term is in it. `None` if memory ran out.
fn with_asked(
    mut terms: Vec<(Term, TermForm)>,
    asked: (Term, TermForm),
) -> Option<Vec<(Term, TermForm)>>
    ensures { IfSome result (λ all. all.items ≡ spec.with_asked terms.items asked) }
{
    if !terms.contains(&asked) && terms.push(asked).is_err() {
        return None;
    }
    Some(terms)
}

/// The missing terms that a walk has found so far.
#[derive(Drop)]
struct Found {
    /// The first of them.
    first: Option<(Term, TermForm)>,
    /// All of them, each once. `None` if they are not kept, or if memory ran out.
    all: Option<Vec<(Term, TermForm)>>,
}

impl Found {
    /// Adds a missing term.
    fn add(&mut self, missing: (Term, TermForm))
        ensures first { self.new.first ≡ option_or self.old.first (Some missing) }
        ensures all { IfSome self.new.all (λ now. Some now.items
            ≡ option_map (λ before. spec.with_asked before.items missing) self.old.all) }
    {
        if self.first.is_none() {
            self.first = Some(missing);
        }
        self.all = match self.all.take() {
            Some(terms) => with_asked(terms, missing),
            None => None,
        };
    }

    /// Asks for a term, and adds it if no locale has it.
    fn ask(&mut self, style: &Style, asked: (Term, TermForm))
        ensures { Finds style.now.locales (asked ∷ []) self.old self.new }
    {
        if is_missing(style, asked) {
            self.add(asked);
        }
    }

    /// Asks for terms, one after the other.
    fn ask_all(&mut self, style: &Style, asked: &[(Term, TermForm)])
        ensures { Finds style.now.locales asked.now self.old self.new }
    {
        for term in asked {
            self.ask(style, *term);
        }
    }
}

/// Asks for two quotes: for the inner ones if `in_quotes`.
fn ask_two_quotes(found: &mut Found, style: &Style, in_quotes: bool)
    ensures { Finds style.now.locales (spec.asked_in_two_quotes in_quotes) found.old found.new }
{
    if in_quotes {
        let quotes = [
            long_form(OtherTerm::OpenInnerQuote),
            long_form(OtherTerm::CloseInnerQuote),
        ];
        found.ask_all(style, &quotes)
    } else {
        let quotes = [
            long_form(OtherTerm::OpenQuote),
            long_form(OtherTerm::CloseQuote),
        ];
        found.ask_all(style, &quotes)
    }
}

/// Asks for the quotes of a text, if it has them.
fn ask_quotes(found: &mut Found, style: &Style, quotes: bool, in_quotes: bool)
    ensures { Finds style.now.locales (spec.asked_in_quotes quotes in_quotes) found.old found.new }
{
    if quotes {
        ask_two_quotes(found, style, in_quotes);
    }
}

/// Asks for the term of each of these kinds of locators, in a form.
fn ask_kinds(found: &mut Found, style: &Style, form: TermForm, kinds: &[Locator])
    ensures { Finds style.now.locales (spec.kind_terms form kinds.now) found.old found.new }
{
    for kind in kinds {
        found.ask(style, (Term::Locator(*kind), form));
    }
}

/// Asks for the term of each kind of locator that has one, in a form.
#[tactic(auto, unfolding(crate::specs::MissingTerm::kinds_with_term))]
fn ask_all_kinds(found: &mut Found, style: &Style, form: TermForm)
    ensures { Finds style.now.locales (spec.kind_terms form spec.kinds_with_term) found.old
        found.new }
{
    let kinds = [
        Locator::Act,
        Locator::Appendix,
        Locator::Book,
        Locator::Canon,
        Locator::Chapter,
        Locator::Column,
        Locator::Equation,
        Locator::Figure,
        Locator::Folio,
        Locator::Issue,
        Locator::Line,
        Locator::Note,
        Locator::Number,
        Locator::Opus,
        Locator::Page,
        Locator::Paragraph,
        Locator::Part,
        Locator::Rule,
        Locator::Scene,
        Locator::Section,
        Locator::SubVerbo,
        Locator::Supplement,
        Locator::Table,
        Locator::Timestamp,
        Locator::Verse,
        Locator::Version,
        Locator::Volume,
    ];
    ask_kinds(found, style, form, &kinds)
}

/// Asks for the term of a label. That of the locator asks for the terms of all kinds.
fn ask_label(found: &mut Found, style: &Style, variable: NumberOrPageVariable, form: TermForm)
    ensures { Finds style.now.locales (spec.asked_in_label variable form) found.old found.new }
{
    match variable {
        NumberOrPageVariable::Number(variable) => {
            if variable == NumberVariable::Locator {
                ask_all_kinds(found, style, form)
            } else {
                found.ask(style, (Term::Number(variable), form))
            }
        }
        NumberOrPageVariable::Page(variable) => found.ask(style, (Term::Page(variable), form)),
    }
}

/// The short term of a season.
fn season(season: Season) -> (Term, TermForm)
    ensures { result ≡ (terms.Other (others.Season season), forms.Short) }
{
    (Term::Other(OtherTerm::Season(season)), TermForm::Short)
}

/// Asks for what a part of a date may need: the eras of a year, the seasons in place of a month.
fn ask_part(found: &mut Found, style: &Style, name: DatePartName)
    ensures { Finds style.now.locales (spec.asked_in_part name) found.old found.new }
{
    match name {
        DatePartName::Day => {}
        DatePartName::Month => found.ask_all(
            style,
            &[
                season(Season::Spring),
                season(Season::Summer),
                season(Season::Autumn),
                season(Season::Winter),
            ],
        ),
        DatePartName::Year => {
            found.ask_all(style, &[long_form(OtherTerm::Ad), long_form(OtherTerm::Bc)])
        }
    }
}

/// Asks for what the parts of a date may need.
fn ask_parts(found: &mut Found, style: &Style, parts: &[DatePart])
    ensures { Finds style.now.locales (spec.asked_in_parts (map view_date_part parts.now)) found.old
        found.new }
{
    for part in parts {
        ask_part(found, style, part.name);
    }
}

/// Asks for what a date may need: with a form, the localized date.
fn ask_date(found: &mut Found, style: &Style, date: &Date)
    ensures { Finds style.now.locales (spec.asked_in_date style.now.locales (view_date date.now))
        found.old found.new }
{
    match date.form {
        None => ask_parts(found, style, &date.date_part),
        Some(form) => match style.localized_date(form) {
            Some(localized) => ask_parts(found, style, &localized.date_part),
            None => {}
        },
    }
}

/// Whether `and` is a word by an option, else as inherited.
fn and_is_a_word(and: Option<NameAnd>, inherited: bool) -> bool
    ensures { result ≡ spec.and_is_a_word and inherited }
{
    match and {
        None => inherited,
        Some(NameAnd::Text) => true,
        Some(NameAnd::Symbol) => false,
    }
}

/// The label of names on one side of them: after them if `after`.
fn label_on(parts: NamesParts<'_>, after: bool) -> Option<&VariablelessLabel>
    ensures { option_map (λ l. view_label l.now) result
        ≡ spec.label_on after (parts_node parts.entry).label }
{
    match parts.label() {
        None => None,
        Some(placed) => {
            if placed.is_after == after {
                Some(placed.label)
            } else {
                None
            }
        }
    }
}

/// Asks for the terms of a label of these variables, if there is one.
fn ask_names_label(
    found: &mut Found,
    style: &Style,
    label: Option<&VariablelessLabel>,
    variables: &[NameVariable],
)
    ensures { Finds style.now.locales (spec.asked_in_names_label
        (option_map (λ l. view_label l.now) label.entry) variables.now) found.old found.new }
{
    if let Some(written) = label {
        for variable in variables {
            found.ask(style, (Term::Name(*variable), written.form));
        }
    }
}

/// Asks for `and`, if names write it as a word.
fn ask_and(found: &mut Found, style: &Style, parts: NamesParts<'_>, inherited: bool)
    ensures { Finds style.now.locales (spec.asked_in_and
        (spec.and_is_a_word (spec.and_of_name (first_name (parts_node parts.entry)))
        (spec.and_is_a_word (parts_node parts.entry).options.and inherited))) found.old found.new }
{
    let own = and_is_a_word(parts.options.and, inherited);
    let writes = match parts.name() {
        Some(name) => and_is_a_word(name.options.and, own),
        None => own,
    };
    if writes {
        found.ask(style, long_form(OtherTerm::And));
    }
}

/// The term that replaces the names left out.
fn et_al_term(parts: NamesParts<'_>) -> OtherTerm
    ensures { result ≡ spec.et_al_term (parts_node parts.entry).et_al }
{
    match parts.et_al() {
        Some(et_al) => et_al.term,
        None => OtherTerm::EtAl,
    }
}

/// Asks for the terms of names of these parts, without their substitutes.
fn ask_names(found: &mut Found, style: &Style, parts: NamesParts<'_>, inherited: bool)
    ensures { Finds style.now.locales (spec.asked_in_names inherited (parts_node parts.entry))
        found.old
        found.new }
{
    ask_names_label(found, style, label_on(parts, false), parts.variables);
    ask_and(found, style, parts, inherited);
    found.ask(style, long_form(et_al_term(parts)));
    ask_names_label(found, style, label_on(parts, true), parts.variables);
}

impl TermScope {
    /// What is around the nodes inside a text.
    fn in_text(self, quotes: bool) -> TermScope
        ensures { result ≡ spec.in_text quotes self }
    {
        TermScope {
            in_quotes: if quotes {
                !self.in_quotes
            } else {
                self.in_quotes
            },
            ..self
        }
    }

    /// What is around the substitutes of names.
    fn in_substitutes(self, parts: NamesParts<'_>) -> TermScope
        ensures { result ≡ spec.in_substitutes (parts_node parts.entry) self }
    {
        TermScope {
            and_is_a_word: and_is_a_word(parts.options.and, self.and_is_a_word),
            ..self
        }
    }
}

/// Asks for the terms of an element.
#[cycle(terms)]
fn visit<'s>(
    found: &mut Found,
    style: &'s Style,
    element: &'s LayoutRenderingElement,
    around: TermScope,
)
    ensures { Finds style.now.locales (spec.asked_in_node style.now.locales around
        (expanded style.now (view_node element.now))) found.old found.new }
{
    match element {
        LayoutRenderingElement::Text(text) => visit_text(found, style, text, around),
        LayoutRenderingElement::Label(label) => {
            ask_label(found, style, label.variable, label.label.form)
        }
        LayoutRenderingElement::Number(_) => {}
        LayoutRenderingElement::Date(date) => ask_date(found, style, date),
        LayoutRenderingElement::Names(names) => visit_names(found, style, names, around),
        LayoutRenderingElement::Choose(choose) => visit_choose(found, style, choose, around),
        LayoutRenderingElement::Group(group) => { visit_all(found, style, &group.children, around) }
    }
}

/// Asks for the terms of elements.
#[cycle(terms)]
fn visit_all<'s>(
    found: &mut Found,
    style: &'s Style,
    elements: &'s [LayoutRenderingElement],
    around: TermScope,
)
    ensures { Finds style.now.locales (spec.asked_in_nodes style.now.locales around
        (expanded_nodes style.now (view_nodes elements.now))) found.old found.new }
{
    for element in elements {
        visit(found, style, element, around);
    }
}

/// Asks for the terms of a text, and of the macro that it calls.
#[cycle(terms)]
fn visit_text<'s>(found: &mut Found, style: &'s Style, text: &'s Text, around: TermScope)
    ensures { Finds style.now.locales (spec.asked_in_node style.now.locales around
        (expanded style.now (view_text text.now))) found.old found.new }
{
    match &text.target {
        TextTarget::Variable { .. } | TextTarget::Value { .. } => {
            ask_quotes(found, style, text.quotes, around.in_quotes);
        }
        TextTarget::Term { term, form, .. } => {
            ask_quotes(found, style, text.quotes, around.in_quotes);
            found.ask(style, (*term, *form));
        }
        TextTarget::Macro { name } => {
            if let Some(called) = style.get_macro(name.as_str()) {
                ask_quotes(found, style, text.quotes, around.in_quotes);
                visit_all(found, style, &called.children, around.in_text(text.quotes));
            }
        }
    }
}

/// Asks for the terms of names, and of their substitutes.
#[cycle(terms)]
fn visit_names<'s>(found: &mut Found, style: &'s Style, names: &'s Names, around: TermScope)
    ensures { Finds style.now.locales (spec.asked_in_node style.now.locales around
        (expanded style.now (view_names names.now))) found.old found.new }
{
    let parts = names.parts();
    ask_names(found, style, parts, around.and_is_a_word);
    let inside = around.in_substitutes(parts);
    for child in &names.children {
        visit_child(found, style, child, parts, inside);
    }
}

/// Asks for the terms of a child of names. Only a substitute asks here for any.
#[cycle(terms)]
fn visit_child<'s>(
    found: &mut Found,
    style: &'s Style,
    child: &'s NamesChild,
    original: NamesParts<'s>,
    around: TermScope,
)
    ensures { Finds style.now.locales (spec.asked_in_child style.now.locales (macro_env style.now)
        (parts_node original.entry) around (view_child child.now)) found.old found.new }
{
    match child {
        NamesChild::Name(_) | NamesChild::EtAl(_) | NamesChild::Label(_) => {}
        NamesChild::Substitute(substitute) => {
            visit_substitute(found, style, &substitute.children, original, around)
        }
    }
}

/// Asks for the terms of the children of a substitute of names.
#[cycle(terms)]
fn visit_substitute<'s>(
    found: &mut Found,
    style: &'s Style,
    elements: &'s [LayoutRenderingElement],
    original: NamesParts<'s>,
    around: TermScope,
)
    ensures { Finds style.now.locales (spec.asked_in_nodes style.now.locales around
        (expand_substitute_nodes (macro_env style.now) (parts_node original.entry)
        (view_nodes elements.now))) found.old found.new }
{
    for element in elements {
        visit_substitute_child(found, style, element, original, around);
    }
}

/// Asks for the terms of a child of a substitute. Names without children are in the place of the
/// names around the substitute.
#[cycle(terms)]
fn visit_substitute_child<'s>(
    found: &mut Found,
    style: &'s Style,
    element: &'s LayoutRenderingElement,
    original: NamesParts<'s>,
    around: TermScope,
)
    ensures { Finds style.now.locales (spec.asked_in_node style.now.locales around
        (as_substitute_child (parts_node original.entry) (view_node element.now)
        (expanded style.now (view_node element.now)))) found.old found.new }
{
    match element.childless_names() {
        Some(names) => {
            let parts = names.parts_in_place_of(original);
            ask_names(found, style, parts, around.and_is_a_word)
        }
        None => visit(found, style, element, around),
    }
}

/// Asks for the terms of the branches of a choice, then of its `otherwise` nodes.
#[cycle(terms)]
fn visit_choose<'s>(found: &mut Found, style: &'s Style, choose: &'s Choose, around: TermScope)
    ensures { Finds style.now.locales (spec.asked_in_node style.now.locales around
        (expanded style.now (view_choose choose.now))) found.old found.new }
{
    visit_all(found, style, &choose.if_.children, around);
    for branch in &choose.else_if {
        visit_all(found, style, &branch.children, around);
    }
    match &choose.otherwise {
        Some(otherwise) => visit_all(found, style, otherwise, around),
        None => {}
    }
}

/// What is around a layout of a style: no quotes, and `and` as a word if it is one in a scope.
fn scope_of_layout(style: &Style) -> TermScope
    ensures { result ≡ spec.scope_of_layout style.now.settings }
{
    let in_citation = and_is_a_word(style.base_name_options(Scope::Citation).and, false);
    let in_bibliography = and_is_a_word(style.base_name_options(Scope::Bibliography).and, false);
    TermScope {
        and_is_a_word: in_citation || in_bibliography,
        in_quotes: false,
    }
}

impl Style {
    /// The terms that a layout asks for and that no locale has, in their form or in one that this
    /// falls back to (CSL 1.0.2, Terms), each once. A missing term prints nothing, and a missing
    /// era ` AD` or ` BC`, so check the locales of a style that you wrote. Some are meant to be
    /// missing: CSL's own locales have no noun for authors, nor terms of all kinds of locators.
    /// Filter those out that you expect.
    ///
    /// The search goes through the layout and the macros that it reaches, in written order. A text
    /// of a term asks for the term; a label for that of its variable; a text in quotes for both
    /// quotes; names for `and`, if they write it as a word, for et al., and for the label of each
    /// variable; a year for the eras, and a month for the seasons in its place. Each branch and
    /// each substitute counts, and so does what only some entries need, such as `and`. A layout
    /// does not tell its scope, so `and` counts if names write it in one of the two. A label of the
    /// locator asks for the term of each kind, because each cite has its own. Months, which print
    /// as numbers, ordinals, the delimiter of page ranges and `editortranslator`, which adds no
    /// text, are not among these terms.
    ///
    /// Ask this only of a layout that [`Style::expanded_within`] limits: the number of steps grows
    /// with the size and with the number of the missing terms, and the stack with the depth.
    pub fn missing_terms(
        &self,
        alloc: Global,
        layout: &Layout,
    ) -> Result<Vec<(Term, TermForm)>, Memory>
        ensures list { IfOk result (λ missing. missing.items
            ≡ spec.missing_terms self.now layout.now) }
        ensures first { IfOk result (λ missing. slice_get missing.items 0
            ≡ spec.missing_term self.now layout.now) }
    {
        let mut found = Found {
            first: None,
            all: Some(Vec::new(alloc)),
        };
        visit_all(&mut found, self, &layout.elements, scope_of_layout(self));
        found.all.ok_or(Memory)
    }

    /// The first of [`Style::missing_terms`], if there is any. The function allocates nothing.
    pub fn missing_term(&self, layout: &Layout) -> Option<(Term, TermForm)>
        ensures { result ≡ spec.missing_term self.now layout.now }
    {
        let mut found = Found {
            first: None,
            all: None,
        };
        visit_all(&mut found, self, &layout.elements, scope_of_layout(self));
        found.first
    }
}
