//! A tree under construction, in one flat list: the children of all open parts, and beside it a
//! mark for each part, which is the place of its first child.

ghost use Rattle.std.specs.Prelude.{◌≡◌, ◌+◌, ◌<◌, ◌≤◌, true, not, [], ◌∷◌, length, take, drop, OnOk, IfOk, OnErr, vec_len, vec_capacity};
ghost use Rattle.std.specs.Bool.{OnTrue, OnFalse};
ghost use Rattle.csl_tree.specs.Content.{◌++>◌, text_content, child_content, elem_content, affixed_content};
ghost use Rattle.csl_tree.specs.Tokens as spec;
ghost use Rattle.csl_tree.specs.Flat.{only_root, with_tokens, open_part, close_part, discard_part, affix_content};
ghost use Rattle.csl_tree.specs.FlatChildren.{content_of, IsJoined};

use crate::content::{join_last, join_texts};
use crate::elem::{Elem, ElemChild, ElemChildren, ElemMeta};
use crate::formatting::{Formatted, Formatting};
use csl_elements::Display;
use lit_model::Memory;
use std::alloc::Global;
use std::marker::Model;

/// The room made for children when the first part opens. It is what most cites need. In bytes it is
/// below 1,008: for more, malloc first joins all small pieces that are free.
const ROOM_FOR_CHILDREN: usize = 13;

/// The room made for marks when the first part opens. It is what most cites need.
const ROOM_FOR_MARKS: usize = 64;

/// The room made in a text for a text that joins it, such as a suffix.
const ROOM_TO_JOIN: usize = 16;

/// What an element or a leaf takes from the limit beside its texts, in bytes.
const BYTES_OF_CHILD: u64 = 64;

/// More than memory holds: whoever may write more has no limit.
const MORE_THAN_MEMORY: u64 = u64::MAX / 2;

/// A tree under construction: its open parts, each with its content. The root is always open.
#[derive(Drop)]
pub struct FlatTree {
    alloc: Global,
    /// The children of all open parts, from the root inwards.
    children: Vec<ElemChild>,
    /// The mark of the innermost part: the place of its first child.
    start: usize,
    /// The marks of the parts around it, from the root inwards.
    around: Vec<usize>,
    /// What may still be written. It is not part of the model: a call that finds too little fails
    /// as one that finds no memory.
    room: Room,
}

impl Model for FlatTree {
    ghost use Rattle.std.specs.Prelude.{◌≡◌, length};
    ghost use Rattle.csl_tree.specs.Flat.{OpenParts};
    ghost use Rattle.csl_tree.specs.FlatChildren.{open_parts, AreMarks};

    ghost Value = { OpenParts };

    ghost view = { λ t. open_parts t.children.items t.start t.around.items };

    ghost invariant = { λ t. AreMarks t.children.items t.start t.around.items };
}

/// The bytes that may still be written into a tree.
#[derive(Clone, Copy)]
struct Room {
    left: u64,
    /// Whether a call wanted more than these.
    is_used_up: bool,
}

/// Takes bytes from the room, if it has so many.
fn take_from(room: &mut Room, bytes: u64) -> Result<(), Memory>
    ensures ok { OnOk result (room.new.left + bytes ≡ room.old.left) }
    ensures err { OnErr result ((room.new.is_used_up ≡ true) × (room.old.left < bytes)) }
{
    match room.left.checked_sub(bytes) {
        Some(left) => {
            room.left = left;
            Ok(())
        }
        None => {
            room.is_used_up = true;
            Err(Memory)
        }
    }
}

/// What a child takes, in bytes. The children of an element took theirs before.
fn child_bytes(child: &ElemChild) -> u64 {
    let texts = match child {
        ElemChild::Text(text) => text.text.len(),
        ElemChild::Markup(markup) => markup.len(),
        ElemChild::Link { text, url } => text.text.len().saturating_add(url.len()),
        ElemChild::Elem(_) => 0,
        ElemChild::Transparent { .. } => 0,
    };
    BYTES_OF_CHILD.saturating_add(texts as u64)
}

/// What an affix takes, in bytes. A missing or empty one takes nothing.
fn affix_bytes(text: &Option<Formatted>) -> u64 {
    match text {
        Some(text) => {
            if text.text.is_empty() {
                0
            } else {
                BYTES_OF_CHILD.saturating_add(text.text.len() as u64)
            }
        }
        None => 0,
    }
}

/// Takes the bytes of an element, and joins the texts among its children, those from `from` on.
fn join_for_elem(room: &mut Room, children: &mut Vec<ElemChild>, from: usize) -> Result<(), Memory>
    requires within { from ≤ length children.old.items }
    ensures before { take from children.new.items ≡ take from children.old.items }
    ensures same { content_of (drop from children.new.items)
        ≡ content_of (drop from children.old.items) }
    ensures joined { OnOk result (IsJoined (drop from children.new.items)) }
{
    take_from(room, BYTES_OF_CHILD)?;
    join_texts(children, from)
}

/// Takes the bytes of two affixes, and makes room for them among the children.
fn reserve_affixes(room: &mut Room, children: &mut Vec<ElemChild>, bytes: u64) -> Result<(), Memory>
    ensures items { children.new.items ≡ children.old.items }
    ensures capacity { OnOk result (vec_len children.old + 2 ≤ vec_capacity children.new) }
{
    take_from(room, bytes)?;
    children.reserve(2)?;
    Ok(())
}

/// Inserts a text at a place, unless it is absent or empty. There must be room for it.
fn insert_text(children: &mut Vec<ElemChild>, at: usize, text: Option<Formatted>)
    requires within { at ≤ vec_len children.old }
    requires room { vec_len children.old < vec_capacity children.old }
    ensures before { take at children.new.items ≡ take at children.old.items }
    ensures from { content_of (drop at children.new.items)
        ≡ affix_content text ++> content_of (drop at children.old.items) }
    ensures len { (vec_len children.old ≤ vec_len children.new)
        × (vec_len children.new ≤ vec_len children.old + 1) }
    ensures kept { vec_capacity children.new ≡ vec_capacity children.old }
{
    if let Some(text) = text {
        if !text.text.is_empty() {
            match children.insert(at, ElemChild::Text(text)) {
                Ok(()) => {}
                Err(_) => unreachable!(),
            }
        }
    }
}

/// The last character of the leaf text of children.
fn last_char(children: &[ElemChild]) -> Option<char>
    ensures { result ≡ spec.last_char (spec.leaf_text (content_of children.now)) }
{
    let mut i = children.len();
    while i > 0 {
        i -= 1;
        let last = children[i].last_char();
        if last.is_some() {
            return last;
        }
    }
    None
}

impl FlatTree {
    /// Returns a tree of which only the root is open, without content. Allocates nothing.
    pub fn new(alloc: Global) -> FlatTree
        ensures { result ≡ only_root }
    {
        FlatTree {
            alloc,
            children: Vec::new(alloc),
            start: 0,
            around: Vec::new(alloc),
            room: Room {
                left: u64::MAX,
                is_used_up: false,
            },
        }
    }

    /// Sets how many bytes may still be written into the tree. Each text takes its bytes, and each
    /// element and leaf 64 more, also if it is dropped later. Of the texts that join another, those
    /// of [`FlatTree::push`] take the 64 too. A call that needs more than are left fails, as one
    /// that finds no memory.
    pub fn limit(&mut self, bytes: u64)
        ensures { self.new ≡ self.old }
    {
        self.room = Room {
            left: bytes,
            is_used_up: false,
        };
    }

    /// How many bytes may still be written, and 0 after a call that wanted more than were left.
    /// Without a limit they are more than memory holds.
    pub fn room(&self) -> u64 {
        if self.room.is_used_up {
            0
        } else {
            self.room.left
        }
    }

    /// Whether there is a limit of what memory may hold.
    pub fn is_limited(&self) -> bool {
        self.room.left <= MORE_THAN_MEMORY
    }

    /// Takes bytes from those that may still be written.
    ///
    /// # Errors
    /// [`Memory`]: fewer are left. The content is unchanged.
    pub fn take(&mut self, bytes: usize) -> Result<(), Memory>
        ensures { self.new ≡ self.old }
    {
        take_from(&mut self.room, bytes as u64)
    }

    /// The number of open parts, including the root.
    pub fn depth(&self) -> usize
        ensures { result ≡ length self.now.outer + 1 }
    {
        self.around.len() + 1
    }

    /// Whether the innermost part has no children.
    pub fn is_empty(&self) -> bool
        ensures { result ≡ not (spec.has_children self.now.inner) }
    {
        self.children.len() == self.start
    }

    /// Whether the leaf text of the innermost part is not empty.
    pub fn has_text(&self) -> bool
        ensures { result ≡ spec.has_text self.now.inner }
    {
        last_char(&self.children[self.start..]).is_some()
    }

    /// Whether the leaf text of the innermost part ends in white space.
    pub fn ends_in_white_space(&self) -> bool
        ensures { result ≡ spec.ends_in_white_space self.now.inner }
    {
        match last_char(&self.children[self.start..]) {
            Some(c) => c.is_whitespace(),
            None => false,
        }
    }

    /// Appends a text to the last child of the innermost part if that is a text of equal
    /// formatting. Returns whether it is.
    fn join_to_last(&mut self, more: &str, formatting: Formatting) -> Result<bool, Memory>
        ensures joins { IfOk result (λ did. OnTrue did
            (self.new ≡ with_tokens (spec.text more.now formatting ∷ []) self.old)) }
        ensures unchanged { IfOk result (λ did. OnFalse did (self.new ≡ self.old)) }
        ensures err { OnErr result (self.new ≡ self.old) }
    {
        let len = self.children.len();
        if len == self.start {
            return Ok(false);
        }
        let did = join_last(&mut self.children[len - 1], more, formatting)?;
        Ok(did)
    }

    /// Appends a child as it is.
    fn push_child(&mut self, child: ElemChild) -> Result<(), Memory>
        ensures ok { OnOk result (self.new ≡ with_tokens (spec.child_tokens child) self.old) }
        ensures err { OnErr result (self.new ≡ self.old) }
    {
        self.children.push(child)?;
        Ok(())
    }

    /// Appends a text as a child of its own.
    fn push_new_text(&mut self, more: &str, formatting: Formatting) -> Result<(), Memory>
        ensures ok { OnOk result
            (self.new ≡ with_tokens (spec.text more.now formatting ∷ []) self.old) }
        ensures err { OnErr result (self.new ≡ self.old) }
    {
        take_from(&mut self.room, BYTES_OF_CHILD)?;
        let room = more.len().saturating_add(ROOM_TO_JOIN);
        let mut text = String::with_capacity(self.alloc, room)?;
        text.push_str(more)?;
        self.push_child(ElemChild::Text(Formatted { text, formatting }))
    }

    /// Appends a text, which joins a last text of equal formatting. An empty text adds nothing.
    ///
    /// # Errors
    /// [`Memory`]: out of memory. The tree is unchanged.
    #[inline(never)]
    pub fn push_text(&mut self, more: &str, formatting: Formatting) -> Result<(), Memory>
        ensures ok { OnOk result
            (self.new ≡ with_tokens (text_content more.now formatting) self.old) }
        ensures err { OnErr result (self.new ≡ self.old) }
    {
        if more.is_empty() {
            return Ok(());
        }
        take_from(&mut self.room, more.len() as u64)?;
        if self.join_to_last(more, formatting)? {
            return Ok(());
        }
        self.push_new_text(more, formatting)
    }

    /// Appends a child. A text joins a last text of equal formatting. A text, markup or link with
    /// empty text adds nothing. An element is appended even without children.
    ///
    /// # Errors
    /// [`Memory`]: out of memory. The tree is unchanged.
    pub fn push(&mut self, child: ElemChild) -> Result<(), Memory>
        ensures ok { OnOk result (self.new ≡ with_tokens (child_content child) self.old) }
        ensures err { OnErr result (self.new ≡ self.old) }
    {
        if child.shows_nothing() {
            return Ok(());
        }
        take_from(&mut self.room, child_bytes(&child))?;
        if let ElemChild::Text(text) = &child {
            if self.join_to_last(text.text.as_str(), text.formatting)? {
                return Ok(());
            }
        }
        self.push_child(child)
    }

    /// Opens a part.
    ///
    /// # Errors
    /// [`Memory`]: out of memory. The tree is unchanged.
    pub fn open(&mut self) -> Result<(), Memory>
        ensures ok { OnOk result (self.new ≡ open_part self.old) }
        ensures err { OnErr result (self.new ≡ self.old) }
    {
        if self.children.capacity() == 0 {
            self.children.reserve(ROOM_FOR_CHILDREN)?;
            self.around.reserve(ROOM_FOR_MARKS)?;
        }
        self.around.push(self.start)?;
        self.start = self.children.len();
        Ok(())
    }

    /// Closes the innermost part, and appends its content to the part around it.
    fn leave(&mut self)
        requires is_open { 0 < length self.old.outer }
        ensures { self.new ≡ close_part self.old.inner self.old }
    {
        match self.around.pop() {
            Some(start) => self.start = start,
            None => unreachable!(),
        }
    }

    /// Closes the innermost part, and appends its content to the part around it as an element.
    /// Without content it appends nothing.
    ///
    /// # Errors
    /// [`Memory`]: out of memory. The tree is unchanged.
    pub fn close_elem(
        &mut self,
        display: Option<Display>,
        meta: Option<ElemMeta>,
    ) -> Result<(), Memory>
        requires is_open { 0 < length self.old.outer }
        ensures ok { OnOk result
            (self.new ≡ close_part (elem_content display (spec.optional_meta meta) self.old.inner)
            self.old) }
        ensures err { OnErr result (self.new ≡ self.old) }
    {
        if !self.is_empty() {
            join_for_elem(&mut self.room, &mut self.children, self.start)?;
            let children = ElemChildren(self.children.split_off(self.start)?);
            self.children.push_reserved(ElemChild::Elem(Elem {
                children,
                display,
                meta,
            }));
        }
        self.leave();
        Ok(())
    }

    /// Closes the innermost part, and appends its content between two texts to the part around it.
    /// Without content it appends nothing.
    ///
    /// # Errors
    /// [`Memory`]: out of memory. The tree is unchanged.
    pub fn close_spliced(
        &mut self,
        before: Option<Formatted>,
        after: Option<Formatted>,
    ) -> Result<(), Memory>
        requires is_open { 0 < length self.old.outer }
        ensures ok { OnOk result (self.new
            ≡ close_part (affixed_content (affix_content before)
            (affix_content after) self.old.inner) self.old) }
        ensures err { OnErr result (self.new ≡ self.old) }
    {
        let end = self.children.len();
        if end > self.start {
            let bytes = affix_bytes(&before).saturating_add(affix_bytes(&after));
            reserve_affixes(&mut self.room, &mut self.children, bytes)?;
            insert_text(&mut self.children, end, after);
            insert_text(&mut self.children, self.start, before);
        }
        self.leave();
        Ok(())
    }

    /// Closes the innermost part and drops its content.
    pub fn discard(&mut self)
        requires is_open { 0 < length self.old.outer }
        ensures { self.new ≡ discard_part self.old }
    {
        self.children.truncate(self.start);
        self.leave();
    }

    /// Returns the content of the root. No other part may be open.
    ///
    /// # Errors
    /// [`Memory`]: out of memory. The content is dropped.
    pub fn finish(self) -> Result<ElemChildren, Memory>
        requires root { length self.outer ≡ 0 }
        ensures { IfOk result (λ children. spec.tokens children ≡ self.inner) }
    {
        let mut children = self.children;
        join_texts(&mut children, 0)?;
        children.shrink_to_fit();
        Ok(ElemChildren(children))
    }
}
