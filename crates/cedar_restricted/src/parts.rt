//! Sets, records and calls, part by part: the frame in which an evaluator waits for their parts.
ghost use Rattle.std.specs.Prelude.{◌≡◌, ℕ, ◌<◌, ◌≤◌, length, IfOk, IfSome};
ghost use Rattle.std.specs.List.Sorted.{IsStrictlySortedBy};
ghost use Rattle.cedar_expressions.specs.View.{terms_view, fields_view};
ghost use Rattle.cedar_expressions.specs.Nodes.{key_order};
ghost use Rattle.cedar_restricted.specs.Keys.{texts_of, fields_named};
ghost use Rattle.cedar_restricted.specs.Parts.{HasKeys, HasKeys-prop, count};
ghost use Rattle.cedar_restricted.specs.declared.whole.Whole.TheVariants as wholes;

use crate::answers::Answers;
use crate::literals::answers_with;
use crate::made::whole_of;
use crate::whole::Whole;
use cedar_errors::evaluator::err::EvaluationError;
use cedar_expressions::Expr;
use cedar_extensions::Extensions;
use cedar_frames::Transition;
use cedar_names::{Loc, Name};
use cedar_values::PartialValue;
use std::alloc::{AllocError, Global};
use std::collections::BTreeMap;
use std::rc::{Rc, RcStr};

/// What comes next of a set, a record or a call: its answer, or the part that it waits for.
pub type NextPart = Transition<PartsFrame, Expr, Result<PartialValue, EvaluationError>>;

/// A set, a record or a call that waits for the answer of a part: what the parts make, the parts, the answers of those
/// before,
/// and where it stands.
#[derive(Drop)]
pub struct PartsFrame {
    whole: Whole,
    parts: Rc<Vec<Expr>>,
    answers: Answers,
    loc: Option<Loc>,
    ghost keys: { HasKeys whole (length parts.value.items) } by { HasKeys-prop whole _ },
    ghost waits: { count answers < length parts.value.items },
}

impl PartsFrame {
    ghost use Rattle.cedar_model.specs.Terms.{set_of, record_of, call};
    ghost use Rattle.cedar_names.specs.Names.{name_text};
    ghost use Rattle.cedar_extensions.specs.Extensions.{extensions_view, calls_of};
    ghost use Rattle.cedar_restricted.specs.Frames.{StartsParts, ContinuesParts, Reads};
    ghost use Rattle.cedar_restricted.specs.Elements.{FirstStand, SetLeads, SetGoesOn};

    /// A set at this location, before any part has answered.
    pub fn set(
        alloc: Global,
        extensions: &Extensions<'_>,
        parts: &Rc<Vec<Expr>>,
        loc: Option<Loc>,
    ) -> NextPart
        ensures begins { StartsParts (extensions_view extensions.now) (calls_of extensions.now)
            (set_of (terms_view parts.now.value.items)) loc result }
        ensures elements { SetLeads parts.now.value.items result }
    {
        match parts.clone() {
            Ok(parts) => PartsFrame::read(
                alloc,
                extensions,
                Whole::Set,
                parts,
                Answers::Values(Vec::new(alloc)),
                loc,
            ),
            Err(error) => Transition::Done(Err(EvaluationError::Memory(error))),
        }
    }

    /// A call of this function at this location, before any argument has answered. The function is looked up after
    /// all of them, and only where each is a value.
    pub fn call(
        alloc: Global,
        extensions: &Extensions<'_>,
        fn_name: &Name,
        args: &Rc<Vec<Expr>>,
        loc: Option<Loc>,
    ) -> NextPart
        ensures { StartsParts (extensions_view extensions.now) (calls_of extensions.now)
            (call (name_text fn_name.now) (terms_view args.now.value.items)) loc result }
    {
        match fn_name.clone() {
            Ok(fn_name) => match args.clone() {
                Ok(args) => PartsFrame::read(
                    alloc,
                    extensions,
                    Whole::Call(fn_name),
                    args,
                    Answers::Values(Vec::new(alloc)),
                    loc,
                ),
                Err(error) => Transition::Done(Err(EvaluationError::Memory(error))),
            },
            Err(error) => Transition::Done(Err(EvaluationError::Memory(error))),
        }
    }

    /// A record at this location, before any field has answered.
    pub fn record(
        alloc: Global,
        extensions: &Extensions<'_>,
        pairs: &BTreeMap<RcStr, Expr>,
        loc: Option<Loc>,
    ) -> NextPart
        ensures { StartsParts (extensions_view extensions.now) (calls_of extensions.now)
            (record_of (fields_view pairs.now.entries)) loc result }
    {
        match keys_and_parts(alloc, pairs) {
            Ok((keys, parts)) => PartsFrame::read(
                alloc,
                extensions,
                Whole::Record(keys),
                parts,
                Answers::Values(Vec::new(alloc)),
                loc,
            ),
            Err(error) => Transition::Done(Err(EvaluationError::Memory(error))),
        }
    }

    // Where the set, the record or the call stands.
    pub(crate) fn loc(&self) -> Option<Loc> {
        self.loc
    }

    /// The same after the answer of the part that it waits for: an error is its own, at its location if it has none.
    /// While the answers are values, literals that follow the part take no turn of their own.
    pub fn resume_parts(
        self,
        alloc: Global,
        extensions: &Extensions<'_>,
        answer: Result<PartialValue, EvaluationError>,
    ) -> NextPart
        ensures goes_on { ContinuesParts (extensions_view extensions.now) (calls_of extensions.now) self answer result }
        ensures elements { SetGoesOn self answer result }
    {
        match answer {
            Ok(part) => match answers_with(alloc, self.answers, part, self.parts.as_slice()) {
                Ok(answers) => PartsFrame::read(
                    alloc, extensions, self.whole, self.parts, answers, self.loc,
                ),
                Err(error) => {
                    drop((self.whole, self.parts));
                    Transition::Done(Err(EvaluationError::Memory(error)))
                }
            },
            Err(error) => {
                let place = self.loc;
                drop(self);
                Transition::Done(Err(error.with_enclosing_loc(place)))
            }
        }
    }

    // The next part, or what all answers make.
    fn read(
        alloc: Global,
        extensions: &Extensions<'_>,
        whole: Whole,
        parts: Rc<Vec<Expr>>,
        answers: Answers,
        loc: Option<Loc>,
    ) -> NextPart
        requires keys { HasKeys whole (length parts.value.items) }
        requires no_more { count answers ≤ length parts.value.items }
        ensures reads { Reads (extensions_view extensions.now) (calls_of extensions.now) whole parts answers loc
            result }
        ensures elements { whole ≡ wholes.Set → ((n : ℕ) → FirstStand n parts.value.items answers) →
            SetLeads parts.value.items result }
    {
        let done = answers.len();
        if done < parts.len() {
            match parts[done].clone() {
                Ok(part) => Transition::Wait(
                    PartsFrame {
                        whole,
                        parts,
                        answers,
                        loc,
                    },
                    part,
                ),
                Err(error) => {
                    drop((whole, parts, answers));
                    Transition::Done(Err(EvaluationError::Memory(error)))
                }
            }
        } else {
            match whole_of(alloc, extensions, whole, answers) {
                Ok(answer) => Transition::Done(Ok(answer.with_maybe_source_loc(loc))),
                Err(error) => Transition::Done(Err(error.with_enclosing_loc(loc))),
            }
        }
    }
}

// The keys of a record and its parts, both in the order of the keys.
fn keys_and_parts(
    alloc: Global,
    pairs: &BTreeMap<RcStr, Expr>,
) -> Result<(Vec<RcStr>, Rc<Vec<Expr>>), AllocError>
    ensures fields { IfOk result
        (λ p. fields_named (texts_of p.0.items) (terms_view p.1.value.items) ≡ fields_view pairs.now.entries) }
    ensures keys { IfOk result
        (λ p. (length p.0.items ≡ length p.1.value.items) × IsStrictlySortedBy key_order p.0.items) }
{
    let mut keys: Vec<RcStr> = Vec::with_capacity(alloc, pairs.len())?;
    let mut parts: Vec<Expr> = Vec::with_capacity(alloc, pairs.len())?;
    'fields: for (key, part) in pairs.iter() {
        keys.push(key.clone()?)?;
        parts.push(part.clone()?)?;
    }
    Ok((keys, Rc::new(alloc, parts)?))
}
