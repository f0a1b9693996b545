//! Writing of pages.

ghost use Rattle.std.specs.Prelude.{◌≡◌, Some, true, OnOk, OnErr};
ghost use Rattle.std.specs.Fmt.{WritesInCalls};
ghost use Rattle.lit_model.specs.Numeric.{numeric_view};
ghost use Rattle.lit_model.specs.Page.{part_view, pages_view, range};
ghost use Rattle.lit_model.specs.PageWrite.{part_text, pages_text};

use super::{PageRanges, PageRangesPart};
use crate::numeric::Numeric;
use csl_common::{Sink, WriteTo, display_text};
use std::fmt;

/// Writes two pages joined by a `-`.
#[tactic(auto, using(csl_common::proofs::Writes::three_writes))]
fn write_range<S: Sink>(sink: &mut S, first: &Numeric, last: &Numeric) -> fmt::Result
    ensures ok { OnOk result (WritesInCalls S.write_str_gives sink.old
        (part_text (range (numeric_view first.now) (numeric_view last.now))) sink.new) }
    ensures kept { OnOk result (S.refused sink.new ≡ S.refused sink.old) }
    ensures err { OnErr result (S.refused sink.new ≡ true) }
{
    first.write_to(sink)?;
    sink.put("-")?;
    last.write_to(sink)?;
    Ok(())
}

/// Writes the part. A separator is written with its spaces.
impl WriteTo for PageRangesPart {
    ghost text = { λ part. part_text (part_view part) };

    fn write_to<S: Sink>(&self, sink: &mut S) -> fmt::Result {
        match self {
            PageRangesPart::Ampersand => sink.put(" & "),
            PageRangesPart::Comma => sink.put(", "),
            PageRangesPart::EscapedRange(first, last) => write_range(sink, first, last),
            PageRangesPart::SinglePage(page) => page.write_to(sink),
            PageRangesPart::Range(first, last) => write_range(sink, first, last),
        }
    }
}

/// Writes the parts in order.
impl WriteTo for PageRanges {
    ghost text = { λ pages. pages_text (pages_view pages) };

    fn write_to<S: Sink>(&self, sink: &mut S) -> fmt::Result {
        for part in &self.ranges {
            part.write_to(sink)?;
        }
        Ok(())
    }
}

impl fmt::Display for PageRanges {
    ghost output = { λ pages. Some (pages_text (pages_view pages)) };

    ghost styled_output = { λ pages spec. Some (pages_text (pages_view pages)) };

    fn fmt<W: fmt::Write>(&self, f: &mut fmt::Formatter<W>) -> fmt::Result {
        display_text(self, f)
    }
}
