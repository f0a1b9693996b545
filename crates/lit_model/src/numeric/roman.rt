//! Roman numerals.

ghost use Rattle.std.specs.Prelude.{◌≡◌, ◌<◌, true, OnOk, OnErr, replicate};
ghost use Rattle.std.specs.Fmt.{WritesInCalls};
ghost use Rattle.lit_model.specs.Characters.{letter_m};
ghost use Rattle.lit_model.specs.Roman as spec;

use csl_common::Sink;
use std::fmt;

/// The digits for the thousands, at most three.
fn thousands(digit: u32) -> &'static str
    requires { digit < 4 }
    ensures { result.now ≡ replicate digit letter_m }
{
    match digit {
        0 => "",
        1 => "m",
        2 => "mm",
        _ => "mmm",
    }
}

/// The digits for the hundreds.
fn hundreds(digit: u32) -> &'static str
    requires { digit < 10 }
    ensures { result.now ≡ spec.hundreds digit }
{
    match digit {
        0 => "",
        1 => "c",
        2 => "cc",
        3 => "ccc",
        4 => "cd",
        5 => "d",
        6 => "dc",
        7 => "dcc",
        8 => "dccc",
        _ => "cm",
    }
}

/// The digits for the tens.
fn tens(digit: u32) -> &'static str
    requires { digit < 10 }
    ensures { result.now ≡ spec.tens digit }
{
    match digit {
        0 => "",
        1 => "x",
        2 => "xx",
        3 => "xxx",
        4 => "xl",
        5 => "l",
        6 => "lx",
        7 => "lxx",
        8 => "lxxx",
        _ => "xc",
    }
}

/// The digits for the units.
fn units(digit: u32) -> &'static str
    requires { digit < 10 }
    ensures { result.now ≡ spec.units digit }
{
    match digit {
        0 => "",
        1 => "i",
        2 => "ii",
        3 => "iii",
        4 => "iv",
        5 => "v",
        6 => "vi",
        7 => "vii",
        8 => "viii",
        _ => "ix",
    }
}

/// Writes a number from 1 to 3999 as a roman numeral in lower case.
#[tactic(auto, using(csl_common::proofs::Writes::four_writes))]
pub fn write_roman<S: Sink>(sink: &mut S, number: u32) -> fmt::Result
    requires { number < 4000 }
    ensures ok { OnOk result
        (WritesInCalls S.write_str_gives sink.old (spec.roman number) sink.new) }
    ensures kept { OnOk result (S.refused sink.new ≡ S.refused sink.old) }
    ensures err { OnErr result (S.refused sink.new ≡ true) }
{
    sink.put(thousands(number / 1000))?;
    sink.put(hundreds(number / 100 % 10))?;
    sink.put(tens(number / 10 % 10))?;
    sink.put(units(number % 10))?;
    Ok(())
}
