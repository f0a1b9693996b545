//! Reads the tag or the text that HTML begins with.

ghost use Rattle.std.specs.Prelude.{◌≡◌, ◌<◌, ◌++◌, length, Option, None, IfSome, IfNone};
ghost use Rattle.csl_tree.specs.Escapes.{escape_all};
ghost use Rattle.csl_tree.specs.Marks as spec;

use crate::escapes::split_plain;

/// An HTML element, by its tag name.
#[derive(Clone, Copy, PartialEq, Eq)]
pub enum Element {
    Div,
    Span,
    Anchor,
}

/// A tag or a text that HTML begins with.
#[derive(Clone, Copy)]
pub enum Mark<'a> {
    Start(Element),
    End(Element),
    /// A text that is not empty, unescaped.
    Text(&'a str),
}

/// The character of the reference that HTML begins with, and the rest.
#[tactic(auto, unfolding(crate::specs::Marks::reference_at), using(crate::proofs::Fronts::stripped))]
fn reference_at(html: &str) -> Option<(&'static str, &str)>
    ensures { spec.texts_found result ≡ spec.as_text (spec.reference_at html.now) }
{
    if let Some(rest) = html.strip_prefix("&amp;") {
        return Some(("&", rest));
    }
    if let Some(rest) = html.strip_prefix("&lt;") {
        return Some(("<", rest));
    }
    if let Some(rest) = html.strip_prefix("&gt;") {
        return Some((">", rest));
    }
    match html.strip_prefix("&quot;") {
        Some(rest) => Some(("\"", rest)),
        None => None,
    }
}

/// The text that HTML begins with, unescaped, and the rest. The text is all characters before the
/// first reserved one, or the character of one reference.
fn text_at(html: &str) -> Option<(&str, &str)>
    ensures found { IfSome result (λ x. (0 < length x.0.now) ×
        (html.now ≡ escape_all x.0.now ++ x.1.now)) }
    ensures none { IfNone result (spec.byte_at html.now ≡ None) }
{
    let (plain, rest) = split_plain(html);
    if !plain.is_empty() {
        return Some((plain, rest));
    }
    reference_at(html)
}

/// The rest after all text that HTML begins with.
fn after_text(html: &str) -> &str
    ensures { spec.IsAfterText html.now result.now }
{
    let mut rest = html;
    while let Some((_, next)) = text_at(rest) {
        rest = next;
    }
    rest
}

/// The rest after the start tag of a `div`, if HTML begins with one.
#[tactic(auto, unfolding(crate::specs::Marks::div_at), using(crate::proofs::Fronts::stripped))]
fn after_div(html: &str) -> Option<&str>
    ensures { spec.rest_found result ≡ spec.div_at html.now }
{
    if let Some(rest) = html.strip_prefix("<div>") {
        return Some(rest);
    }
    if let Some(rest) = html.strip_prefix("<div style=\"padding-left: 4em;\">") {
        return Some(rest);
    }
    if let Some(rest) = html.strip_prefix("<div style=\"float: left;\">") {
        return Some(rest);
    }
    html.strip_prefix("<div style=\"float: right; clear: both;\">")
}

/// The rest after a declaration, or all of `css` if the declaration is absent.
#[tactic(auto, using(crate::proofs::Fronts::stripped))]
fn after<'a>(css: &'a str, declaration: &str) -> &'a str
    ensures { result.now ≡ spec.after declaration.now css.now }
{
    css.strip_prefix(declaration).unwrap_or(css)
}

/// The rest after the declaration of a weight, which may be absent.
#[tactic(auto, using(crate::proofs::Fronts::stripped))]
fn after_weight(css: &str) -> &str
    ensures { result.now ≡ spec.after_weight css.now }
{
    if let Some(rest) = css.strip_prefix("font-weight: bold;") {
        return rest;
    }
    after(css, "font-weight: lighter;")
}

/// The rest after the declaration of an alignment, which may be absent.
#[tactic(auto, using(crate::proofs::Fronts::stripped))]
fn after_align(css: &str) -> &str
    ensures { result.now ≡ spec.after_align css.now }
{
    if let Some(rest) = css.strip_prefix("vertical-align: super;") {
        return rest;
    }
    after(css, "vertical-align: sub;")
}

/// The rest after the declarations of a formatting. Any of them may be absent.
#[tactic(auto, unfolding(crate::specs::Marks::after_css))]
fn after_css(css: &str) -> &str
    ensures { result.now ≡ spec.after_css css.now }
{
    let css = after(css, "font-style: italic;");
    let css = after_weight(css);
    let css = after(css, "text-decoration: underline;");
    let css = after(css, "font-variant: small-caps;");
    after_align(css)
}

/// The rest after the start tag of a `span`, if HTML begins with one.
#[tactic(auto, unfolding(crate::specs::Marks::span_at), using(crate::proofs::Fronts::stripped))]
fn after_span(html: &str) -> Option<&str>
    ensures { spec.rest_found result ≡ spec.span_at html.now }
{
    let css = html.strip_prefix("<span style=\"")?;
    after_css(css).strip_prefix("\">")
}

/// The rest after the start tag of an anchor, if HTML begins with one.
fn after_anchor(html: &str) -> Option<&str>
    ensures { spec.IsAfterAnchor html.now (spec.rest_found result) }
{
    let url = html.strip_prefix("<a href=\"")?;
    after_text(url).strip_prefix("\">")
}

/// The element whose start tag HTML begins with, and the rest.
fn read_start_tag(html: &str) -> Option<(Element, &str)>
    ensures found { IfSome result (λ x. spec.IsStart html.now x.0 x.1.now) }
    ensures none { IfNone result (spec.BeginsNoStart html.now) }
{
    if let Some(rest) = after_div(html) {
        return Some((Element::Div, rest));
    }
    if let Some(rest) = after_span(html) {
        return Some((Element::Span, rest));
    }
    match after_anchor(html) {
        Some(rest) => Some((Element::Anchor, rest)),
        None => None,
    }
}

/// The element whose end tag HTML begins with, and the rest.
#[tactic(auto, unfolding(crate::specs::Marks::read_end_tag), using(crate::proofs::Fronts::stripped))]
fn read_end_tag(html: &str) -> Option<(Element, &str)>
    ensures { spec.values_found result ≡ spec.read_end_tag html.now }
{
    if let Some(rest) = html.strip_prefix("</div>") {
        return Some((Element::Div, rest));
    }
    if let Some(rest) = html.strip_prefix("</span>") {
        return Some((Element::Span, rest));
    }
    match html.strip_prefix("</a>") {
        Some(rest) => Some((Element::Anchor, rest)),
        None => None,
    }
}

/// The tag or the text that HTML begins with, and the rest.
pub fn read_piece(html: &str) -> Option<(Mark<'_>, &str)>
    ensures found { IfSome result (λ x. spec.IsMark html.now x.0 x.1.now) }
    ensures none { IfNone result (spec.BeginsNoPiece html.now) }
{
    if let Some((text, rest)) = text_at(html) {
        return Some((Mark::Text(text), rest));
    }
    if let Some((element, rest)) = read_start_tag(html) {
        return Some((Mark::Start(element), rest));
    }
    match read_end_tag(html) {
        Some((element, rest)) => Some((Mark::End(element), rest)),
        None => None,
    }
}
