//! Strings of HTML: the CSS declaration of each attribute, and the start tag of a `div`.
//! Definitions: specs/Html.antt.

ghost use Rattle.std.specs.Prelude.{◌≡◌};
ghost use Rattle.csl_tree.specs.Html as spec;

use csl_elements::{Display, FontStyle, FontVariant, FontWeight, TextDecoration, VerticalAlign};

/// The CSS declaration of a font style, empty for the normal one.
pub(crate) fn declare_style(style: FontStyle) -> &'static str
    ensures { result.now ≡ spec.style_css style }
{
    match style {
        FontStyle::Normal => "",
        FontStyle::Italic => "font-style: italic;",
    }
}

/// The CSS declaration of a font weight, empty for the normal one.
pub(crate) fn declare_weight(weight: FontWeight) -> &'static str
    ensures { result.now ≡ spec.weight_css weight }
{
    match weight {
        FontWeight::Normal => "",
        FontWeight::Bold => "font-weight: bold;",
        FontWeight::Light => "font-weight: lighter;",
    }
}

/// The CSS declaration of a text decoration, empty for none.
pub(crate) fn declare_decoration(decoration: TextDecoration) -> &'static str
    ensures { result.now ≡ spec.decoration_css decoration }
{
    match decoration {
        TextDecoration::None => "",
        TextDecoration::Underline => "text-decoration: underline;",
    }
}

/// The CSS declaration of a font variant, empty for the normal one.
pub(crate) fn declare_variant(variant: FontVariant) -> &'static str
    ensures { result.now ≡ spec.variant_css variant }
{
    match variant {
        FontVariant::Normal => "",
        FontVariant::SmallCaps => "font-variant: small-caps;",
    }
}

/// The CSS declaration of a vertical alignment, empty for none and for the baseline.
pub(crate) fn declare_align(align: VerticalAlign) -> &'static str
    ensures { result.now ≡ spec.align_css align }
{
    match align {
        VerticalAlign::None | VerticalAlign::Baseline => "",
        VerticalAlign::Sup => "vertical-align: super;",
        VerticalAlign::Sub => "vertical-align: sub;",
    }
}

/// The start tag of the `div` for a display.
pub(crate) fn div_start(display: Display) -> &'static str
    ensures { result.now ≡ spec.div_start display }
{
    match display {
        Display::Block => "<div>",
        Display::LeftMargin => "<div style=\"float: left;\">",
        Display::RightInline => "<div style=\"float: right; clear: both;\">",
        Display::Indent => "<div style=\"padding-left: 4em;\">",
    }
}
