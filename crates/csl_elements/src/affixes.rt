//! Affixes (CSL 1.0.2, Affixes).
//! Definitions: specs/Constructors.antt, specs/Dressing.antt.

ghost use Rattle.std.specs.Prelude.{◌≡◌, IfOk};
ghost use Rattle.csl_elements.specs.Dressing.{affix_texts};
ghost use Rattle.csl_elements.specs.Constructors.{text_before, text_after, texts_around};

use csl_common::Memory;
use std::alloc::Global;

/// The texts before and after a node's content. Both are inside the node's own formatting.
#[derive(Default, Drop)]
pub struct Affixes {
    pub prefix: Option<String>,
    pub suffix: Option<String>,
}

impl Affixes {
    /// A prefix without a suffix.
    pub fn before(alloc: Global, prefix: &str) -> Result<Affixes, Memory>
        ensures { IfOk result (λ affixes. affix_texts affixes ≡ text_before prefix.now) }
    {
        Ok(Affixes {
            prefix: Some(String::from_str(alloc, prefix)?),
            ..Affixes::default()
        })
    }

    /// A suffix without a prefix.
    pub fn after(alloc: Global, suffix: &str) -> Result<Affixes, Memory>
        ensures { IfOk result (λ affixes. affix_texts affixes ≡ text_after suffix.now) }
    {
        Ok(Affixes {
            suffix: Some(String::from_str(alloc, suffix)?),
            ..Affixes::default()
        })
    }

    /// A prefix and a suffix.
    pub fn around(alloc: Global, prefix: &str, suffix: &str) -> Result<Affixes, Memory>
        ensures { IfOk result (λ affixes. affix_texts affixes
            ≡ texts_around prefix.now suffix.now) }
    {
        let prefix = String::from_str(alloc, prefix)?;
        let suffix = String::from_str(alloc, suffix)?;
        Ok(Affixes {
            prefix: Some(prefix),
            suffix: Some(suffix),
        })
    }
}
