//! Replaces links by their text if their address is not allowed.

ghost use Rattle.std.specs.Prelude.{◌≡◌, Bool, List, ℕ, true};
ghost use Rattle.std.specs.Fn.{CalledAt, ComputesKey};
ghost use Rattle.std.specs.List.{list_all};
ghost use Rattle.std.specs.List.Retain.{IsFiltered};
ghost use Rattle.csl_tree.specs.Links.{KeepsInTurn, addresses, kept_links, child_without_link};
ghost use Rattle.csl_tree.specs.Tokens.{child_tokens, leaf_text, tokens};
ghost use Rattle.csl_tree.specs.Write.{plain_text};

use crate::elem::{ElemChild, ElemChildren};
use crate::formatting::Formatting;
use std::mem;

impl ElemChild {
    /// Returns the text of a link, and any other child unchanged.
    fn without_link(self) -> ElemChild
        ensures { result ≡ child_without_link self }
    {
        match self {
            ElemChild::Link { text, .. } => ElemChild::Text(text),
            other => other,
        }
    }

    /// Replaces a link by its text. Any other child is unchanged.
    fn unlink(&mut self)
        ensures { self.new ≡ child_without_link self.old }
    {
        let other = ElemChild::Transparent {
            cite_idx: 0,
            format: Formatting::default(),
        };
        let child = mem::replace(self, other);
        *self = child.without_link();
    }

    /// Replaces the child if it is a link, or each link inside it, by the link's text, unless
    /// `is_allowed` accepts the address.
    #[cycle(links)]
    fn keep_links_by<F: FnMut(&str) -> bool>(&mut self, is_allowed: &mut F)
        requires { F.IsAlwaysCallable is_allowed.old }
        ensures callable { F.IsAlwaysCallable is_allowed.new }
        ensures kept { KeepsInTurn (CalledAt F.FnMut) is_allowed.old (child_tokens self.old)
            (child_tokens self.new) is_allowed.new }
    {
        if self.as_elem().is_some() {
            self.children_mut().keep_links_by(is_allowed);
        } else if let ElemChild::Link { url, .. } = self {
            if !is_allowed(url.as_str()) {
                self.unlink();
            }
        }
    }
}

impl ElemChildren {
    #[cycle(links)]
    fn keep_links_by<F: FnMut(&str) -> bool>(&mut self, is_allowed: &mut F)
        requires { F.IsAlwaysCallable is_allowed.old }
        ensures callable { F.IsAlwaysCallable is_allowed.new }
        ensures kept { KeepsInTurn (CalledAt F.FnMut) is_allowed.old (tokens self.old)
            (tokens self.new) is_allowed.new }
    {
        for child in self.0.iter_mut() {
            child.keep_links_by(is_allowed);
        }
    }

    /// Replaces each link, at any depth, by its text if its address is not allowed. `is_allowed` is
    /// called once for each link, in their order. Allocates nothing.
    pub fn keep_links<F: FnMut(&str) -> bool>(&mut self, mut is_allowed: F)
        requires { F.IsAlwaysCallable is_allowed }
        // `is_allowed` is called at each address in turn, the first time as it is handed over, with
        // the values that it captures. The addresses that are left are those that it accepts.
        ensures filtered { IsFiltered (CalledAt F.FnMut) is_allowed
            (addresses (tokens self.old)) (addresses (tokens self.new)) }
        // Exactly the links that it rejects become their texts, whatever its result depends on.
        ensures in_turn { (after : F) × KeepsInTurn (CalledAt F.FnMut) is_allowed
            (tokens self.old) (tokens self.new) after }
        // If its result depends on the address alone, exactly the links that it rejects become
        // their texts.
        ensures kept { (allowed : List ℕ → Bool) → ComputesKey F.FnMut allowed is_allowed
            → tokens self.new ≡ kept_links allowed (tokens self.old) }
        ensures allowed { (allowed : List ℕ → Bool) → ComputesKey F.FnMut allowed is_allowed
            → list_all allowed (addresses (tokens self.new)) ≡ true }
        ensures leaves { leaf_text (tokens self.new) ≡ leaf_text (tokens self.old) }
        ensures plain { plain_text (tokens self.new) ≡ plain_text (tokens self.old) }
    {
        self.keep_links_by(&mut is_allowed);
    }
}
