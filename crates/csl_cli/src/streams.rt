//! The standard streams as writers.

use std::fmt;

/// Standard output.
#[derive(Drop)]
pub struct Output<'a, R> {
    pub rt: &'a R,
}

impl<R: Print> fmt::Write for Output<'_, R> {
    fn write_str(&mut self, s: &str) -> fmt::Result {
        self.rt.print(s).map_err(|_| fmt::Error)
    }
}

/// Standard error.
#[derive(Drop)]
pub struct Stderr<'a, R> {
    pub rt: &'a R,
}

impl<R: Eprint> fmt::Write for Stderr<'_, R> {
    fn write_str(&mut self, s: &str) -> fmt::Result {
        self.rt.eprint(s).map_err(|_| fmt::Error)
    }
}
