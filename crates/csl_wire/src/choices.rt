//! The names of the values of attributes.

use csl_elements::{
    ChooseMatch, DateAnyForm, DateForm, DatePartName, DateParts, DelimiterBehavior, Display,
    FontStyle, FontVariant, FontWeight, GrammarGender, LabelPluralize, LongShortForm, NameAnd,
    NameAsSortOrder, NameForm, NamePartName, NumberForm, OrdinalMatch, TermForm, TestPosition,
    TextDecoration, VerticalAlign,
};
use csl_finish::TextCase;
use csl_style::{DemoteNonDroppingParticle, PageRangeFormat};

/// Font styles (CSL 1.0.2, Formatting).
pub(crate) static FONT_STYLES: [(&str, FontStyle); 2] = [
    ("normal", FontStyle::Normal),
    ("italic", FontStyle::Italic),
];

/// Font variants.
pub(crate) static FONT_VARIANTS: [(&str, FontVariant); 2] = [
    ("normal", FontVariant::Normal),
    ("small-caps", FontVariant::SmallCaps),
];

/// Font weights.
pub(crate) static FONT_WEIGHTS: [(&str, FontWeight); 3] = [
    ("normal", FontWeight::Normal),
    ("bold", FontWeight::Bold),
    ("light", FontWeight::Light),
];

/// Decorations of texts.
pub(crate) static TEXT_DECORATIONS: [(&str, TextDecoration); 2] = [
    ("none", TextDecoration::None),
    ("underline", TextDecoration::Underline),
];

/// Positions relative to the baseline.
pub(crate) static VERTICAL_ALIGNS: [(&str, VerticalAlign); 4] = [
    ("none", VerticalAlign::None),
    ("baseline", VerticalAlign::Baseline),
    ("sup", VerticalAlign::Sup),
    ("sub", VerticalAlign::Sub),
];

/// Cases of texts (CSL 1.0.2, Text-case).
pub(crate) static TEXT_CASES: [(&str, TextCase); 6] = [
    ("lowercase", TextCase::Lowercase),
    ("uppercase", TextCase::Uppercase),
    ("capitalize-first", TextCase::CapitalizeFirst),
    ("capitalize-all", TextCase::CapitalizeAll),
    ("title", TextCase::TitleCase),
    ("sentence", TextCase::SentenceCase),
];

/// Places on the page (CSL 1.0.2, Display).
pub(crate) static DISPLAYS: [(&str, Display); 4] = [
    ("block", Display::Block),
    ("left-margin", Display::LeftMargin),
    ("right-inline", Display::RightInline),
    ("indent", Display::Indent),
];

/// Forms of a variable (CSL 1.0.2, Text: form).
pub(crate) static LONG_SHORT_FORMS: [(&str, LongShortForm); 2] = [
    ("long", LongShortForm::Long),
    ("short", LongShortForm::Short),
];

/// Forms of a term (CSL 1.0.2, Text: form; Label: form).
pub(crate) static TERM_FORMS: [(&str, TermForm); 5] = [
    ("long", TermForm::Long),
    ("short", TermForm::Short),
    ("verb", TermForm::Verb),
    ("verb-short", TermForm::VerbShort),
    ("symbol", TermForm::Symbol),
];

/// Forms of a number (CSL 1.0.2, Number: form).
pub(crate) static NUMBER_FORMS: [(&str, NumberForm); 4] = [
    ("numeric", NumberForm::Numeric),
    ("ordinal", NumberForm::Ordinal),
    ("long-ordinal", NumberForm::LongOrdinal),
    ("roman", NumberForm::Roman),
];

/// When a label is in the plural (CSL 1.0.2, Label: plural).
pub(crate) static PLURALS: [(&str, LabelPluralize); 3] = [
    ("contextual", LabelPluralize::Contextual),
    ("always", LabelPluralize::Always),
    ("never", LabelPluralize::Never),
];

/// Forms of a localized date (CSL 1.0.2, Date: form).
pub(crate) static DATE_FORMS: [(&str, DateForm); 2] = [
    ("numeric", DateForm::Numeric),
    ("text", DateForm::Text),
];

/// Which parts of a localized date are written (CSL 1.0.2, Date: date-parts).
pub(crate) static DATE_PARTS: [(&str, DateParts); 3] = [
    ("year", DateParts::Year),
    ("year-month", DateParts::YearMonth),
    ("year-month-day", DateParts::YearMonthDay),
];

/// Parts of a date (CSL 1.0.2, Date-part: name).
pub(crate) static DATE_PART_NAMES: [(&str, DatePartName); 3] = [
    ("day", DatePartName::Day),
    ("month", DatePartName::Month),
    ("year", DatePartName::Year),
];

/// Forms of a part of a date (CSL 1.0.2, Date-part: form).
pub(crate) static DATE_PART_FORMS: [(&str, DateAnyForm); 5] = [
    ("numeric", DateAnyForm::Numeric),
    ("numeric-leading-zeros", DateAnyForm::NumericLeadingZeros),
    ("ordinal", DateAnyForm::Ordinal),
    ("long", DateAnyForm::Long),
    ("short", DateAnyForm::Short),
];

/// Forms of a name (CSL 1.0.2, Name: form).
pub(crate) static NAME_FORMS: [(&str, NameForm); 3] = [
    ("long", NameForm::Long),
    ("short", NameForm::Short),
    ("count", NameForm::Count),
];

/// Words before the last name (CSL 1.0.2, Name: and).
pub(crate) static ANDS: [(&str, NameAnd); 2] = [
    ("text", NameAnd::Text),
    ("symbol", NameAnd::Symbol),
];

/// Names that begin with the family name (CSL 1.0.2, Name: name-as-sort-order).
pub(crate) static SORT_ORDERS: [(&str, NameAsSortOrder); 2] = [
    ("first", NameAsSortOrder::First),
    ("all", NameAsSortOrder::All),
];

/// When a delimiter comes before `et al.` or the last name (CSL 1.0.2, Name:
/// delimiter-precedes-et-al, delimiter-precedes-last).
pub(crate) static DELIMITER_BEHAVIORS: [(&str, DelimiterBehavior); 4] = [
    ("contextual", DelimiterBehavior::Contextual),
    ("after-inverted-name", DelimiterBehavior::AfterInvertedName),
    ("always", DelimiterBehavior::Always),
    ("never", DelimiterBehavior::Never),
];

/// Parts of a name (CSL 1.0.2, Name-part: name).
pub(crate) static NAME_PART_NAMES: [(&str, NamePartName); 2] = [
    ("given", NamePartName::Given),
    ("family", NamePartName::Family),
];

/// How the tests of a branch are combined (CSL 1.0.2, Choose: match).
pub(crate) static MATCHES: [(&str, ChooseMatch); 3] = [
    ("all", ChooseMatch::All),
    ("any", ChooseMatch::Any),
    ("none", ChooseMatch::None),
];

/// Positions of a cite (CSL 1.0.2, Choose: position).
pub(crate) static POSITIONS: [(&str, TestPosition); 5] = [
    ("first", TestPosition::First),
    ("subsequent", TestPosition::Subsequent),
    ("ibid", TestPosition::Ibid),
    ("ibid-with-locator", TestPosition::IbidWithLocator),
    ("near-note", TestPosition::NearNote),
];

/// Genders (CSL 1.0.2, Gender-specific Ordinals).
pub(crate) static GENDERS: [(&str, GrammarGender); 2] = [
    ("feminine", GrammarGender::Feminine),
    ("masculine", GrammarGender::Masculine),
];

/// Digits that are compared with an ordinal's number (CSL 1.0.2, Ordinals: match).
pub(crate) static ORDINAL_MATCHES: [(&str, OrdinalMatch); 3] = [
    ("last-digit", OrdinalMatch::LastDigit),
    ("last-two-digits", OrdinalMatch::LastTwoDigits),
    ("whole-number", OrdinalMatch::WholeNumber),
];

/// Where particles come after the given name (CSL 1.0.2, demote-non-dropping-particle).
pub(crate) static DEMOTIONS: [(&str, DemoteNonDroppingParticle); 3] = [
    (
        "display-and-sort",
        DemoteNonDroppingParticle::DisplayAndSort,
    ),
    ("sort-only", DemoteNonDroppingParticle::SortOnly),
    ("never", DemoteNonDroppingParticle::Never),
];

/// Formats of page ranges (CSL 1.0.2, Appendix V: Page Range Formats).
pub(crate) static PAGE_FORMATS: [(&str, PageRangeFormat); 6] = [
    ("expanded", PageRangeFormat::Expanded),
    ("minimal", PageRangeFormat::Minimal),
    ("minimal-two", PageRangeFormat::MinimalTwo),
    ("chicago", PageRangeFormat::Chicago15),
    ("chicago-15", PageRangeFormat::Chicago15),
    ("chicago-16", PageRangeFormat::Chicago16),
];
