//! How a style formats its text (CSL 1.0.2, Formatting) and where it places it (Display).

ghost use Rattle.std.specs.Prelude.{◌≡◌};
ghost use Rattle.csl_elements.specs.Constructors as spec;
ghost use Rattle.csl_elements.specs.Formatting.{apply_partial, IsBoth};

/// Whether a text is upright or slanted.
#[derive(Clone, Copy, Debug, Default, PartialEq, Eq, Hash)]
pub enum FontStyle {
    #[default]
    Normal,
    Italic,
}

/// Whether a text is in small capitals.
#[derive(Clone, Copy, Debug, Default, PartialEq, Eq, Hash)]
pub enum FontVariant {
    #[default]
    Normal,
    SmallCaps,
}

/// How heavy a text is.
#[derive(Clone, Copy, Debug, Default, PartialEq, Eq, Hash)]
pub enum FontWeight {
    #[default]
    Normal,
    Bold,
    Light,
}

/// Whether a text is underlined.
#[derive(Clone, Copy, Debug, Default, PartialEq, Eq, Hash)]
pub enum TextDecoration {
    #[default]
    None,
    Underline,
}

/// The position of a text relative to the baseline.
#[derive(Clone, Copy, Debug, Default, PartialEq, Eq, Hash)]
pub enum VerticalAlign {
    #[default]
    None,
    Baseline,
    Sup,
    Sub,
}

/// The place of an element on the page (CSL 1.0.2, Display).
#[derive(Clone, Copy, Debug, PartialEq, Eq, Hash)]
pub enum Display {
    /// On lines of its own.
    Block,
    /// At the left margin.
    LeftMargin,
    /// To the right of an element at the left margin.
    RightInline,
    /// On lines of its own, moved to the right.
    Indent,
}

/// The formatting attributes of a node. A node inherits each attribute that it does not set.
#[derive(Clone, Copy, Debug, Default, PartialEq, Eq, Hash)]
pub struct Formatting {
    pub font_style: Option<FontStyle>,
    pub font_variant: Option<FontVariant>,
    pub font_weight: Option<FontWeight>,
    pub text_decoration: Option<TextDecoration>,
    pub vertical_align: Option<VerticalAlign>,
}

impl Formatting {
    /// Italics, and nothing else.
    pub fn italic() -> Formatting
        ensures { result ≡ spec.italic }
    {
        Formatting {
            font_style: Some(FontStyle::Italic),
            ..Formatting::default()
        }
    }

    /// Returns this formatting over another: each attribute that is set here, else that of `base`.
    /// Over a third formatting, partial or complete, the result equals this one over `base` over
    /// the third.
    #[tactic(auto, using(crate::proofs::Overlays::over_both))]
    pub fn apply(self, base: Formatting) -> Formatting
        ensures value { result ≡ apply_partial self base }
        ensures both { IsBoth self base result }
    {
        Formatting {
            font_style: self.font_style.or(base.font_style),
            font_variant: self.font_variant.or(base.font_variant),
            font_weight: self.font_weight.or(base.font_weight),
            text_decoration: self.text_decoration.or(base.text_decoration),
            vertical_align: self.vertical_align.or(base.vertical_align),
        }
    }
}
