//! A list of at least one item. The last item is the current one.

ghost use Rattle.std.specs.Prelude.{◌≡◌, ℕ, ◌+◌, ◌-◌, ◌<◌, [], ◌∷◌, ◌++◌, length, take, drop, IfOk, OnOk, IfErr, OnErr, IfSome, IfNone, slice_index_or};
ghost use Rattle.std.specs.Borrow.{sem};
ghost use Rattle.std.specs.Cmp.Lexicographic.{pointwise, lists_per, lists_equiv};
ghost use Rattle.std.specs.Int.NonZero.{non_zero_usize_get};
ghost use Rattle.std.specs.List.{AllZip};
ghost use Rattle.std.specs.Slice.Iter.{iter_rest};
ghost use Rattle.csl_tree.specs.Stack.{lends_item, lends_accepted, IsLastAccepted, IsLastAt, RejectsFrom};

use lit_model::Memory;
use std::alloc::Global;
use std::marker::Model;
use std::num::NonZeroUsize;
use std::slice;

/// A stack that is never empty.
#[derive(Drop)]
pub struct NonEmptyStack<T> {
    items: Vec<T>,
}

impl<T> Model for NonEmptyStack<T> {
    ghost use Rattle.std.specs.Prelude.{List, length, ◌<◌};

    ghost Value = { List T };

    ghost view = { λ s. s.items.items };

    ghost invariant = { λ s. 0 < length s.items.items };
}

impl<T> NonEmptyStack<T> {
    /// Returns a stack of one item.
    ///
    /// # Errors
    /// [`Memory`]: out of memory. The item is dropped.
    pub fn new(alloc: Global, item: T) -> Result<Self, Memory>
    where
        T: Drop,
        ensures { IfOk result (λ stack. stack ≡ item ∷ []) }
    {
        let mut items = Vec::new(alloc);
        items.push(item)?;
        Ok(NonEmptyStack { items })
    }

    /// Returns a stack of one default item.
    pub fn with_default(alloc: Global) -> Result<Self, Memory>
    where
        T: Default + Drop,
        ensures { IfOk result (λ stack. (item : T) × T.is_default item × (stack ≡ item ∷ [])) }
    {
        NonEmptyStack::new(alloc, T::default())
    }

    /// Returns a stack of the items' clones, in order.
    pub fn clone(&self, alloc: Global) -> Result<Self, Memory>
    where
        T: Clone + Drop,
        ensures { IfOk result (λ copy. AllZip T.is_clone self.now copy) }
    {
        let items = self.items.as_slice().to_vec(alloc)?;
        Ok(NonEmptyStack { items })
    }

    /// The number of items.
    pub fn len(&self) -> NonZeroUsize
        ensures { non_zero_usize_get result ≡ length self.now }
    {
        NonZeroUsize::new(self.items.len()).unwrap()
    }

    /// The last item.
    pub fn last(&self) -> &T
        ensures { result.now ≡ slice_index_or self.now (length self.now - 1) result.now }
    {
        &self.items[self.items.len() - 1]
    }

    /// The last item, as a mutable reference. Nothing else changes.
    pub fn last_mut(&mut self) -> &mut T
        ensures* writes_back { sem 𝓛 (lends_item T.row self.entry (length self.old - 1) result) }
        ensures value { result.now ≡ slice_index_or self.old (length self.old - 1) result.now }
    {
        let len = self.items.len();
        &mut self.items[len - 1]
    }

    /// The first item, as a mutable reference. Nothing else changes.
    pub fn first_mut(&mut self) -> &mut T
        ensures* writes_back { sem 𝓛 (lends_item T.row self.entry 0 result) }
        ensures value { result.now ≡ slice_index_or self.old 0 result.now }
    {
        &mut self.items[0]
    }

    /// The item at index `i`, as a mutable reference. Nothing else changes.
    fn at_mut(&mut self, i: usize) -> &mut T
        requires { i < length self.old }
        ensures* writes_back { sem 𝓛 (lends_item T.row self.entry i result) }
        ensures value { result.now ≡ slice_index_or self.old i result.now }
    {
        &mut self.items[i]
    }

    /// The index of the last item that the predicate accepts.
    fn last_accepted<F: Fn(&T) -> bool + Drop>(&self, predicate: F) -> Option<usize>
        requires { F.IsAlwaysCallable predicate }
        ensures found { IfSome result (λ i.
            (i < length self.now) × IsLastAt F.Fn predicate self.now i) }
        ensures none { IfNone result (RejectsFrom F.Fn predicate self.now 0) }
    {
        let mut i = self.items.len();
        while i > 0 {
            i -= 1;
            if predicate(&self.items[i]) {
                return Some(i);
            }
        }
        None
    }

    /// The last item that the predicate accepts, as a mutable reference, or `None` if it accepts
    /// none. Nothing else changes.
    pub fn last_mut_predicate<F: Fn(&T) -> bool + Drop>(&mut self, predicate: F) -> Option<&mut T>
        requires { F.IsAlwaysCallable predicate }
        ensures* writes_back { sem 𝓛 (lends_accepted T.row self.entry F.Fn predicate result) }
        ensures value { IfSome result (λ r. (i : ℕ)
            × IsLastAccepted F.Fn predicate self.old i r.now) }
        ensures none { IfNone result (RejectsFrom F.Fn predicate self.old 0) }
    {
        match self.last_accepted(predicate) {
            Some(i) => Some(self.at_mut(i)),
            None => None,
        }
    }

    /// Appends an item.
    ///
    /// # Errors
    /// The item itself: out of memory. The stack is unchanged.
    pub fn push(&mut self, item: T) -> Result<(), T>
        ensures ok { OnOk result (self.new ≡ self.old ++ item ∷ []) }
        ensures back { IfErr result (λ back. back ≡ item) }
        ensures err { OnErr result (self.new ≡ self.old) }
    {
        match self.items.push(item) {
            Ok(()) => Ok(()),
            Err(failed) => Err(failed.value),
        }
    }

    /// Removes and returns the last item, unless it is the only one.
    pub fn pop(&mut self) -> Option<T>
        ensures some { IfSome result (λ item. self.old ≡ self.new ++ item ∷ []) }
        ensures left { IfSome result (λ _. 0 < length self.new) }
        ensures none { IfNone result ((self.new ≡ self.old) × (length self.old ≡ 1)) }
    {
        if self.items.len() > 1 {
            self.items.pop()
        } else {
            None
        }
    }

    /// Removes the items from `idx` on, and returns them in order.
    ///
    /// # Errors
    /// [`Memory`]: out of memory. The stack is unchanged.
    pub fn drain(&mut self, idx: NonZeroUsize) -> Result<Vec<T>, Memory>
        requires { non_zero_usize_get idx < length self.old }
        ensures taken { IfOk result (λ items.
            items.items ≡ drop (non_zero_usize_get idx) self.old) }
        ensures left { OnOk result (self.new ≡ take (non_zero_usize_get idx) self.old) }
        ensures err { OnErr result (self.new ≡ self.old) }
    {
        let items = self.items.split_off(idx.get())?;
        Ok(items)
    }

    /// The items, from the first to the last.
    pub fn iter(&self) -> slice::Iter<'_, T>
        ensures { iter_rest result ≡ self.now }
    {
        self.items.iter()
    }

    /// Returns the item of a stack that has only one.
    pub fn finish(self) -> T
        requires { length self ≡ 1 }
        ensures { self ≡ result ∷ [] }
    {
        let NonEmptyStack { mut items } = self;
        match items.pop() {
            Some(item) => {
                items.destroy_empty();
                item
            }
            None => unreachable!(),
        }
    }
}

/// Stacks are equal if they have equal items in the same order.
impl<T: PartialEq> PartialEq for NonEmptyStack<T> {
    ghost eq = { pointwise T.eq };

    ghost laws = { lists_per T.laws };

    fn eq(&self, other: &Self) -> bool {
        self.items.as_slice() == other.items.as_slice()
    }
}

impl<T: Eq> Eq for NonEmptyStack<T> {
    ghost laws = { lists_equiv T.Eq.laws };
}
