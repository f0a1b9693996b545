//! The program `csl_cite`: it prints the cite of a title or of a built-in entry, the label of such
//! an entry, whether it is of a kind, or the leaf text of HTML. [`csl_cli::program`] does all of
//! its work.
#![tactic(auto)]

use csl_cli::program;
use std::process::ExitCode;

fn main(rt: HostRuntime) -> ExitCode {
    let arguments = program::arguments(&rt);
    ExitCode::from(program::status(&rt, arguments))
}
