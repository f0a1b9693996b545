//! A session: what is kept, and the reply to each request.
//! Definitions: specs/Replies.antt.

ghost use Rattle.std.specs.Prelude.{◌≡◌, None, Some, IfOk, string_bytes};
ghost use Rattle.std.specs.Str.{IsUtf8};
ghost use Rattle.serde_json.specs.Data.{Data, null};
ghost use Rattle.serde_json.specs.Read.{read};
ghost use Rattle.csl_session.specs.Limits.{IsWithin};
ghost use Rattle.csl_session.specs.Replies.{id_of, IsReplyText};

use crate::asked::formats_of;
use crate::documents::document_value;
use crate::hello::hello_value;
use crate::kept::Shelf;
use crate::limits::{SessionLimits, has_more_values, items_within};
use crate::op::{OPS, Op};
use crate::rendering::{Part, item_of, item_value};
use crate::replies::{outcome_value, reply_text, value_of_bytes};
use crate::style_facts::{Fact, fact_value};
use csl::Renderer;
use csl::style::Scope;
use csl_common::Memory;
use csl_list::ListStyle;
use csl_wire::{Code, Form, Reader, Step, WireError, members_of, within};
use csl_wire_cite::{WireEntry, entry_of};
use serde_json::Value;
use std::alloc::Global;

/// What the requests so far have left, and what is allowed.
#[derive(Drop)]
pub struct Session {
    pub(crate) limits: SessionLimits,
    pub(crate) styles: Shelf<ListStyle>,
    pub(crate) works: Shelf<WireEntry>,
}

/// The scopes of sort keys.
static SCOPES: [(&str, Scope); 2] = [
    ("citation", Scope::Citation),
    ("bibliography", Scope::Bibliography),
];

/// The refusal of a name by which nothing is kept.
fn unknown(alloc: Global, member: &'static str, reason: &'static str, name: &str) -> WireError {
    WireError::of_word(alloc, Code::UnknownName, reason, name, None).after(Step::Member(member))
}

impl Session {
    /// A session that keeps nothing yet.
    pub fn new(alloc: Global, limits: SessionLimits) -> Session
        ensures { result.limits ≡ limits }
    {
        Session {
            limits,
            styles: Shelf::new(alloc, limits.kept_styles),
            works: Shelf::new(alloc, limits.kept_works),
        }
    }

    /// The style that a request names.
    fn named_style(&self, form: Form<'_>) -> Result<&ListStyle, WireError> {
        let Some(name) = form.word("style")? else {
            return Err(form.missing("style"));
        };
        match self.styles.get(name) {
            Some(style) => Ok(style),
            None => {
                let reason = "no style is kept by this name";
                Err(unknown(form.reader.alloc, "style", reason, name))
            }
        }
    }

    /// One item of a batch: by a kept work, which it names, or by a work of its own. `is_english`
    /// is whether works are English that do not say so themselves.
    fn item_value(
        &self,
        alloc: Global,
        renderer: &mut Renderer<'_>,
        value: &Value,
        part: Part,
        is_english: bool,
    ) -> Result<Value, WireError> {
        let item = item_of(self.limits, alloc, value, part)?;
        let Some(work) = item.member("work") else {
            return Err(item.missing("work"));
        };
        if let Some(name) = work.as_str() {
            return match self.works.get(name) {
                Some(work) => item_value(self.limits, renderer, work, item, part, is_english),
                None => Err(unknown(alloc, "work", "no work is kept by this name", name)),
            };
        }
        let read = entry_of(alloc, work, self.limits.work);
        let work = within(Step::Member("work"), read)?;
        item_value(self.limits, renderer, &work, item, part, is_english)
    }

    /// Renders the items of a member, each with an outcome of its own.
    fn batch(&self, form: Form<'_>, name: &'static str, part: Part) -> Result<Value, WireError> {
        let alloc = form.reader.alloc;
        let style = self.named_style(form)?;
        let items = items_within(form, name, self.limits.items)?;
        let mut renderer = Renderer::new(style.style()).limited(self.limits.room);
        let mut outcomes = Vec::with_capacity(alloc, items.len())?;
        for (place, item) in items.iter().enumerate() {
            let made = self.item_value(alloc, &mut renderer, item, part, style.is_english());
            let made = within(Step::Member(name), within(Step::Item(place), made));
            outcomes.push(outcome_value(alloc, made)?)?;
        }
        Ok(Value::Array(outcomes))
    }

    /// The answer to a request of this operation.
    fn answer_to(&mut self, op: Op, form: Form<'_>) -> Result<Value, WireError> {
        let alloc = form.reader.alloc;
        match op {
            Op::Hello => Ok(hello_value(alloc, self.limits)?),
            Op::Style => self.keep_style(form),
            Op::Works => self.keep_works(form),
            Op::Cite => self.batch(form, "cites", Part::Cite(formats_of(form)?)),
            Op::Line => self.batch(form, "lines", Part::Line(formats_of(form)?)),
            Op::Document => {
                let formats = formats_of(form)?;
                document_value(
                    self.named_style(form)?,
                    &self.works,
                    form,
                    self.limits,
                    formats,
                )
            }
            Op::SortKey => {
                let scope = form.choice("scope", &SCOPES)?;
                let part = Part::Key(scope.unwrap_or(Scope::Bibliography));
                self.batch(form, "keys", part)
            }
            Op::Named => fact_value(alloc, self.named_style(form)?.style(), Fact::Named),
            Op::MissingTerms => {
                fact_value(alloc, self.named_style(form)?.style(), Fact::MissingTerms)
            }
            Op::Drop => self.drop_named(form),
        }
    }

    /// The answer to a request.
    fn answer(&mut self, alloc: Global, request: &Value) -> Result<Value, WireError> {
        let reader = Reader {
            alloc,
            limits: self.limits.read,
            marks: false,
        };
        members_of(reader, request)?;
        let form = Form {
            reader,
            value: request,
        };
        let op = form.one_choice("op", &OPS)?;
        let form = Form::of(reader, request, &[op.members()])?;
        self.answer_to(op, form)
    }

    /// The reply to a request, as a JSON text in one line. `{"id": .., "ok": ..}` has an answer,
    /// and `{"id": .., "error": {"code": .., "at": .., "message": ..}}` says why there is none. The
    /// id is that of the request, or `null` if it has none.
    pub fn reply(&mut self, alloc: Global, request: &[u8]) -> Result<String, Memory>
        ensures json { (d : Data) → IsUtf8 request.now → read request.now ≡ Some d → IfOk result
            (λ text. IsReplyText (id_of d) (string_bytes text)) }
        ensures other { (IsUtf8 request.now → read request.now ≡ None) → IfOk result (λ text.
            IsReplyText null (string_bytes text)) }
    {
        let null = Value::Null;
        match value_of_bytes(alloc, request) {
            Ok(request) => {
                let answer = self.answer(alloc, &request);
                let id = request.get("id").unwrap_or(&null);
                reply_text(alloc, id, answer, self.limits.reply)
            }
            Err(WireError::Memory) => Err(Memory),
            Err(error) => reply_text(alloc, &null, Err(error), self.limits.reply),
        }
    }

    /// The reply to a request, as [`Session::reply`] gives it. A request of more bytes or values
    /// than are allowed is refused, and its id is not read.
    pub fn limited_reply(&mut self, alloc: Global, request: &[u8]) -> Result<String, Memory>
        ensures json { (d : Data) → IsWithin self.old.limits request.now → IsUtf8 request.now
            → read request.now ≡ Some d → IfOk result (λ text. IsReplyText (id_of d)
            (string_bytes text)) }
        ensures other { (IsWithin self.old.limits request.now → IsUtf8 request.now
            → read request.now ≡ None) → IfOk result (λ text. IsReplyText null
            (string_bytes text)) }
    {
        let limits = self.limits;
        if request.len() > limits.request || has_more_values(request, limits.values) {
            let reason = "the request is larger than is allowed";
            let refusal = WireError::of(alloc, Code::TooLarge, reason);
            return reply_text(alloc, &Value::Null, Err(refusal), limits.reply);
        }
        self.reply(alloc, request)
    }
}
