//! Marks of open parts.

ghost use Rattle.std.specs.Prelude.{◌≡◌, ℕ};

use std::marker::Model;

/// The mark of an open part. The call that opens the part returns it, and a call that closes the
/// part takes it. In contracts a mark is the number of open parts around its part. The root does
/// not count, so a part that is opened in the root alone has the mark 0. A part can be closed while
/// its mark is that of the innermost part.
#[derive(Clone, Copy, Debug)]
pub struct Mark {
    depth: usize,
}

/// The number of open parts around the marked part, without the root.
impl Model for Mark {
    ghost Value = { ℕ };

    ghost view = { λ m. m.depth };

    ghost inverse = { λ d. record { depth = d } };
}

impl Mark {
    /// The mark of a part with `depth` open parts around it, without the root.
    pub(crate) fn new(depth: usize) -> Mark
        ensures { result ≡ depth }
    {
        Mark { depth }
    }
}
