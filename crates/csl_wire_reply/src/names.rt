//! The names of formattings and displays (CSL 1.0.2, Formatting; Display). A default has none.
//! Definitions: specs/Members.antt.

ghost use Rattle.std.specs.Prelude.{◌≡◌, option_map};
ghost use Rattle.csl_wire_reply.specs.Members as spec;

use csl_elements::{Display, FontStyle, FontVariant, FontWeight, TextDecoration, VerticalAlign};

/// The name of a font style.
pub(crate) fn font_style(style: FontStyle) -> Option<&'static str>
    ensures { option_map (λ t. t.now) result ≡ spec.font_style style }
{
    match style {
        FontStyle::Normal => None,
        FontStyle::Italic => Some("italic"),
    }
}

/// The name of a font variant.
pub(crate) fn font_variant(variant: FontVariant) -> Option<&'static str>
    ensures { option_map (λ t. t.now) result ≡ spec.font_variant variant }
{
    match variant {
        FontVariant::Normal => None,
        FontVariant::SmallCaps => Some("small-caps"),
    }
}

/// The name of a font weight.
pub(crate) fn font_weight(weight: FontWeight) -> Option<&'static str>
    ensures { option_map (λ t. t.now) result ≡ spec.font_weight weight }
{
    match weight {
        FontWeight::Normal => None,
        FontWeight::Bold => Some("bold"),
        FontWeight::Light => Some("light"),
    }
}

/// The name of a decoration.
pub(crate) fn text_decoration(decoration: TextDecoration) -> Option<&'static str>
    ensures { option_map (λ t. t.now) result ≡ spec.text_decoration decoration }
{
    match decoration {
        TextDecoration::None => None,
        TextDecoration::Underline => Some("underline"),
    }
}

/// The name of an alignment.
pub(crate) fn vertical_align(align: VerticalAlign) -> Option<&'static str>
    ensures { option_map (λ t. t.now) result ≡ spec.vertical_align align }
{
    match align {
        VerticalAlign::None => None,
        VerticalAlign::Baseline => Some("baseline"),
        VerticalAlign::Sup => Some("sup"),
        VerticalAlign::Sub => Some("sub"),
    }
}

/// The name of a display, which has no default.
pub(crate) fn display(display: Display) -> &'static str
    ensures { result.now ≡ spec.display_name display }
{
    match display {
        Display::Block => "block",
        Display::LeftMargin => "left-margin",
        Display::RightInline => "right-inline",
        Display::Indent => "indent",
    }
}
