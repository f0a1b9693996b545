//! The operations of requests.

/// What a request wants.
#[derive(Clone, Copy)]
pub(crate) enum Op {
    /// To know the session's protocol, limits and names.
    Hello,
    /// To keep a style.
    Style,
    /// To keep works.
    Works,
    /// To render cites.
    Cite,
    /// To render lines of the bibliography.
    Line,
    /// To render the citations and the bibliography of a document.
    Document,
    /// To render keys to sort by.
    SortKey,
    /// To know what a style names.
    Named,
    /// To know which terms a style lacks.
    MissingTerms,
    /// To forget styles and works.
    Drop,
}

/// The names of operations.
pub(crate) static OPS: [(&str, Op); 10] = [
    ("hello", Op::Hello),
    ("style", Op::Style),
    ("works", Op::Works),
    ("cite", Op::Cite),
    ("line", Op::Line),
    ("document", Op::Document),
    ("sort-key", Op::SortKey),
    ("named", Op::Named),
    ("missing-terms", Op::MissingTerms),
    ("drop", Op::Drop),
];

static HELLO: [&str; 2] = ["id", "op"];

static STYLE: [&str; 7] = [
    "id",
    "op",
    "name",
    "style",
    "class",
    "citation",
    "bibliography",
];

static WORKS: [&str; 3] = ["id", "op", "works"];

static CITE: [&str; 6] = ["id", "op", "style", "cites", "formats", "links"];

static LINE: [&str; 6] = ["id", "op", "style", "lines", "formats", "links"];

static DOCUMENT: [&str; 7] = [
    "id",
    "op",
    "style",
    "citations",
    "works",
    "formats",
    "links",
];

static SORT_KEY: [&str; 5] = ["id", "op", "style", "keys", "scope"];

static FACT: [&str; 3] = ["id", "op", "style"];

static DROP: [&str; 4] = ["id", "op", "styles", "works"];

impl Op {
    /// The members of its requests.
    pub(crate) fn members(self) -> &'static [&'static str] {
        match self {
            Op::Hello => &HELLO,
            Op::Style => &STYLE,
            Op::Works => &WORKS,
            Op::Cite => &CITE,
            Op::Line => &LINE,
            Op::Document => &DOCUMENT,
            Op::SortKey => &SORT_KEY,
            Op::Named | Op::MissingTerms => &FACT,
            Op::Drop => &DROP,
        }
    }
}
