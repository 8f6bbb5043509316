//! One policy of a text.
ghost use Rattle.std.specs.Prelude.{◌≡◌, IfOk, IfErr, Some, true, false};
ghost use Rattle.std.specs.Prelude.{if◌then◌else◌};
ghost use Rattle.cedar_model.specs.Policies.{permit, forbid};
ghost use Rattle.cedar_layers.specs.Policies.{policy_id_text, effect_view};
ghost use Rattle.cedar_functions.specs.Functions.{knowledge};
ghost use Rattle.cedar_text_parser.specs.Reading.{IsPlaceWithin};
ghost use Rattle.cedar_text_parser.specs.PolicyReading.{IsPolicyAt, IsPolicyRefused, IsMadeOf};

use crate::annotations::annotations;
use crate::source::Source;
use crate::{Four, ParseError, four_expressions, known_calls};
use cedar_functions::Functions;
use cedar_layers::policies::{Annotations, Effect, Policy, PolicyID};
use cedar_names::{Loc, SlotEnv};
use cedar_text_syntax::policy_steps;
use std::alloc::{AllocError, Global};

/// A policy, and the number of the token behind it.
#[derive(Drop)]
pub(crate) struct Read {
    pub(crate) policy: Policy,
    pub(crate) next: usize,
}

/// The policy of this id that begins with the token of this number.
pub(crate) fn policy_at(
    alloc: Global,
    source: &Source,
    index: usize,
    id: PolicyID,
    limit: usize,
    functions: &Functions,
) -> Result<Read, ParseError>
    ensures ok { IfOk result (λ r. IsPolicyAt (knowledge functions.now) source.now limit (policy_id_text id)
        index r.next r.policy) }
    ensures err { IfErr result (IsPolicyRefused (knowledge functions.now) source.now limit index) }
    ensures placed { IfErr result (IsPlaceWithin source.now.text) }
{
    let read = policy_steps(alloc, source.tokens(), index, limit)?;
    known_calls(alloc, source, read.steps.as_slice(), functions)?;
    let annotations = annotations(alloc, source, read.annotations.as_slice())?;
    let four = four_expressions(alloc, source, read.steps.as_slice())?;
    let loc = Loc {
        start: read.start,
        end: read.end,
    };
    let policy = make_policy(alloc, read.permits, id, annotations, four, loc)?;
    Ok(Read {
        policy,
        next: read.next,
    })
}

// The policy of these parts.
fn make_policy(
    alloc: Global,
    permits: bool,
    id: PolicyID,
    annotations: Annotations,
    four: Four,
    loc: Loc,
) -> Result<Policy, AllocError>
    ensures ok { IfOk result (IsMadeOf permits id annotations four loc) }
{
    let effect = effect(permits);
    let env = SlotEnv::new(alloc);
    let policy = Policy::new(
        alloc,
        effect,
        id,
        annotations,
        four.principal,
        four.action,
        four.resource,
        four.condition,
        env,
    )?;
    Ok(policy.with_maybe_source_loc(Some(loc)))
}

fn effect(permits: bool) -> Effect
    ensures { effect_view result ≡ (if permits then permit else forbid) }
{
    if permits {
        Effect::Permit
    } else {
        Effect::Forbid
    }
}
