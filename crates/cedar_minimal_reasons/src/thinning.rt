//! Which facts can be left out.
ghost use Rattle.std.specs.Prelude.{◌≡◌, ◌<◌, ◌++◌, true, Some, IfOk, OnOk, length};
ghost use Rattle.cedar_decisions.specs.Decisions.{decision_view};
ghost use Rattle.cedar_reasons.specs.Facts.{facts_view};
ghost use Rattle.cedar_minimal_reasons.specs.Questions.{question, Answers};
ghost use Rattle.cedar_minimal_reasons.specs.Reasons.{IsGiven, IsMinimal, IsThinned, facts_of, without};
ghost use Rattle.cedar_minimal_reasons.specs.Reasons.{same_decision, is_allow, fewer_if};

use crate::cases::{Case, decided_by};
use crate::reasons::Reason;
use cedar_authorizer::authorizer::{Authorizer, Decision};
use cedar_fallible::add_last;
use cedar_reasons::Fact;
use std::alloc::{AllocError, Global};

// What trying the facts, one after another, came to.
#[derive(Drop)]
pub(crate) enum Trial<'x> {
    // None can be left out.
    Minimal,
    // These, of which one is left out, still give the decision.
    Fewer(Vec<Fact<'x>>),
    // Neither is known.
    Undecided,
}

// Of these facts those that are left when each was tried once and, while there are calls, until none can be left out.
pub(crate) fn thinned<'x>(
    alloc: Global,
    authorizer: &Authorizer<'_>,
    case: &Case<'x>,
    decision: Decision,
    facts: Vec<Fact<'x>>,
    calls: usize,
) -> Result<Reason<'x>, AllocError>
    requires { Answers (question authorizer.now case.now) (facts_view facts.items) (Some (decision_view decision)) }
    ensures given { IfOk result (IsGiven (question authorizer.now case.now)) }
    ensures minimal { IfOk result (λ r.
        r.is_minimal ≡ true → IsMinimal (question authorizer.now case.now) (facts_of r)) }
{
    let mut left = calls;
    let facts = tried_once(alloc, authorizer, case, decision, facts, &mut left)?;
    settled(alloc, authorizer, case, decision, facts, left)
}

// Of these facts those that are left when each was tried once, while there are calls.
fn tried_once<'x>(
    alloc: Global,
    authorizer: &Authorizer<'_>,
    case: &Case<'x>,
    decision: Decision,
    facts: Vec<Fact<'x>>,
    calls: &mut usize,
) -> Result<Vec<Fact<'x>>, AllocError>
    requires { Answers (question authorizer.now case.now) (facts_view facts.items) (Some (decision_view decision)) }
    ensures { IfOk result (λ v.
        Answers (question authorizer.now case.now) (facts_view v.items) (Some (decision_view decision))) }
{
    let mut facts = facts;
    let mut at: usize = 0;
    'each: while at < facts.len() && *calls > 0 {
        *calls -= 1;
        let rest = without(alloc, &facts, at)?;
        if is_given(alloc, authorizer, case, decision, &rest)? {
            facts = rest;
        } else {
            at += 1;
        }
    }
    Ok(facts)
}

// Whether this decision is given by the facts.
fn is_given(
    alloc: Global,
    authorizer: &Authorizer<'_>,
    case: &Case<'_>,
    decision: Decision,
    facts: &[Fact<'_>],
) -> Result<bool, AllocError>
    ensures { IfOk result (λ b. b ≡ true →
        Answers (question authorizer.now case.now) (facts_view facts.now) (Some (decision_view decision))) }
{
    match decided_by(alloc, authorizer, case, facts)? {
        Some(found) => Ok(same_decision(found, decision)),
        None => Ok(false),
    }
}

fn same_decision(one: Decision, other: Decision) -> bool
    ensures { result ≡ same_decision (decision_view one) (decision_view other) }
{
    match one {
        Decision::Allow => is_allow(other),
        Decision::Deny => !is_allow(other),
    }
}

fn is_allow(decision: Decision) -> bool
    ensures { result ≡ is_allow (decision_view decision) }
{
    match decision {
        Decision::Allow => true,
        Decision::Deny => false,
    }
}

// The reason by these facts, without those that can be left out, while there are calls.
fn settled<'x>(
    alloc: Global,
    authorizer: &Authorizer<'_>,
    case: &Case<'x>,
    decision: Decision,
    facts: Vec<Fact<'x>>,
    calls: usize,
) -> Result<Reason<'x>, AllocError>
    requires { Answers (question authorizer.now case.now) (facts_view facts.items) (Some (decision_view decision)) }
    ensures given { IfOk result (IsGiven (question authorizer.now case.now)) }
    ensures minimal { IfOk result (λ r.
        r.is_minimal ≡ true → IsMinimal (question authorizer.now case.now) (facts_of r)) }
{
    let mut facts = facts;
    let mut left = calls;
    'passes: for _ in 0..calls {
        if facts.len() > left {
            return Ok(reason_of(decision, facts, false));
        }
        left -= facts.len();
        match fewer(alloc, authorizer, case, decision, &facts)? {
            Trial::Minimal => return Ok(reason_of(decision, facts, true)),
            Trial::Fewer(rest) => facts = rest,
            Trial::Undecided => return Ok(reason_of(decision, facts, false)),
        }
    }
    Ok(reason_of(decision, facts, false))
}

fn reason_of<'x>(decision: Decision, facts: Vec<Fact<'x>>, is_minimal: bool) -> Reason<'x>
    ensures decision { result.decision ≡ decision }
    ensures facts { result.facts ≡ facts.entry }
    ensures minimal { result.is_minimal ≡ is_minimal }
{
    Reason {
        decision,
        facts,
        is_minimal,
    }
}

// The facts without the first that can be left out.
fn fewer<'x>(
    alloc: Global,
    authorizer: &Authorizer<'_>,
    case: &Case<'_>,
    decision: Decision,
    facts: &[Fact<'x>],
) -> Result<Trial<'x>, AllocError>
    ensures { IfOk result
        (IsThinned (question authorizer.now case.now) (facts_view facts.now) (decision_view decision)) }
{
    'each: for at in 0..facts.len() {
        let rest = without(alloc, facts, at)?;
        match decided_by(alloc, authorizer, case, &rest)? {
            Some(found) => return Ok(fewer_if(same_decision(found, decision), rest)),
            None => {}
        }
    }
    Ok(Trial::Minimal)
}

fn fewer_if<'x>(is_given: bool, rest: Vec<Fact<'x>>) -> Trial<'x>
    ensures { result ≡ fewer_if is_given rest.entry }
{
    if is_given {
        Trial::Fewer(rest)
    } else {
        Trial::Undecided
    }
}

// The facts without the one at this place.
fn without<'x>(alloc: Global, facts: &[Fact<'x>], at: usize) -> Result<Vec<Fact<'x>>, AllocError>
    requires { at < length facts.now }
    ensures { IfOk result (λ v. facts_view v.items ≡ without at (facts_view facts.now)) }
{
    let mut rest: Vec<Fact<'x>> = Vec::new(alloc);
    add_all(&mut rest, &facts[..at])?;
    add_all(&mut rest, &facts[at + 1..])?;
    Ok(rest)
}

fn add_all<'x>(facts: &mut Vec<Fact<'x>>, more: &[Fact<'x>]) -> Result<(), AllocError>
    ensures { OnOk result (facts.new.items ≡ facts.old.items ++ more.now) }
{
    'each: for fact in more {
        add_last(facts, *fact)?;
    }
    Ok(())
}
