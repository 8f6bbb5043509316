#![tactic(auto, using(cedar_expressions::proofs::Levels::levels))]
//! Policies: an effect and the condition under which it applies.
ghost use Rattle.std.specs.Prelude.{◌≡◌, Some, IfOk};
ghost use Rattle.std.specs.Rc.{rc_str_bytes};

use cedar_expressions::Expr;
use cedar_names::{Literal, Loc, SlotEnv};
use std::alloc::{AllocError, Global};
use std::collections::BTreeMap;
use std::fmt;
use std::rc::{Rc, RcStr};

/// What a policy does with the requests that satisfy its condition.
#[derive(Clone, Copy, Debug, PartialEq, Eq)]
pub enum Effect {
    /// It allows them, unless a policy forbids them.
    Permit,
    /// It denies them.
    Forbid,
}

/// The id of a policy. Ids are ordered by the bytes of their texts.
#[derive(Clone, Debug, PartialEq, Eq, PartialOrd, Ord, Hash)]
pub struct PolicyID(RcStr);

impl Drop for PolicyID {
    fn drop(self) {
        let PolicyID(_) = self;
    }
}

impl PolicyID {
    ghost use Rattle.cedar_layers.specs.Policies.{policy_id_text};

    /// The id of this text.
    pub fn from_string(text: RcStr) -> PolicyID
        ensures { policy_id_text result ≡ rc_str_bytes text }
    {
        PolicyID(text)
    }
}

impl fmt::Display for PolicyID {
    ghost use Rattle.cedar_layers.specs.Policies.{policy_id_text};

    ghost output = { λ id. Some (policy_id_text id) };

    fn fmt<W: fmt::Write>(&self, f: &mut fmt::Formatter<W>) -> fmt::Result {
        f.write_str(self.0.as_str())
    }
}

/// The annotations of a policy: texts under their keys. They say nothing to the evaluator.
#[derive(Clone, Debug, PartialEq, Eq, Drop)]
pub struct Annotations(pub BTreeMap<RcStr, RcStr>);

impl Annotations {
    ghost use Rattle.std.specs.Prelude.{[]};
    ghost use Rattle.cedar_layers.specs.Policies.{annotations_view};

    /// No annotations. It takes no memory.
    pub fn new(alloc: Global) -> Annotations
        ensures { annotations_view result ≡ [] }
    {
        Annotations(BTreeMap::new(alloc))
    }
}

/// A policy: its effect, and the condition under which it applies. The condition is in four parts: the constraints on
/// the principal, on the action and on the resource, and the when clause. Slots in these parts have the values of
/// `env`.
#[derive(Debug)]
pub struct Policy {
    effect: Effect,
    id: PolicyID,
    annotations: Rc<Annotations>,
    principal: Rc<Expr>,
    action: Rc<Expr>,
    resource: Rc<Expr>,
    when: Rc<Expr>,
    env: Rc<SlotEnv>,
    loc: Option<Loc>,
}

impl Drop for Policy {
    fn drop(self) {
        let Policy {
            effect: _,
            id: _,
            annotations: _,
            principal: _,
            action: _,
            resource: _,
            when: _,
            env: _,
            loc: _,
        } = self;
    }
}

impl Policy {
    ghost use Rattle.std.specs.Prelude.{None};
    ghost use Rattle.cedar_model.specs.Terms.{both};
    ghost use Rattle.cedar_expressions.specs.View.{view, expr_loc};
    ghost use Rattle.cedar_layers.specs.Policies.{effect_view, policy_id_text, annotations_view, slots_view, policy_view};
    ghost use Rattle.cedar_layers.specs.Policies.{condition_parts, policy_parts, policy_of, policy_when, condition_term};
    ghost use Rattle.cedar_layers.specs.Policies.{policy_location, IsConjunction, IsConditionOf, linked};

    /// The policy of these parts, at no known location. Refuses only if out of memory.
    pub fn new(
        alloc: Global,
        effect: Effect,
        id: PolicyID,
        annotations: Annotations,
        principal: Expr,
        action: Expr,
        resource: Expr,
        when: Expr,
        env: SlotEnv,
    ) -> Result<Policy, AllocError>
        ensures view { IfOk result (λ p. policy_view p ≡ policy_of effect id annotations
            (condition_parts principal action resource when) env) }
        ensures parts { IfOk result (λ p. policy_parts p ≡ condition_parts principal action resource when) }
        ensures loc { IfOk result (λ p. policy_location p ≡ None) }
    {
        let (annotations, env, principal, action, resource, when) = shared_parts(
            alloc,
            annotations,
            env,
            principal,
            action,
            resource,
            when,
        )?;
        Ok(Policy {
            effect,
            id,
            annotations,
            principal,
            action,
            resource,
            when,
            env,
            loc: None,
        })
    }

    /// The policy with this when clause, at this location: its constraints are all `true`, and no slot has a value.
    /// Refuses only if out of memory.
    pub fn from_when_clause_annos(
        alloc: Global,
        effect: Effect,
        expr: Rc<Expr>,
        id: PolicyID,
        loc: Option<Loc>,
        annotations: Rc<Annotations>,
    ) -> Result<Policy, AllocError>
        ensures view { IfOk result (λ p. policy_view p ≡ policy_when effect id annotations.value expr.value) }
        ensures clause { IfOk result (λ p. (policy_parts p).when ≡ expr.value) }
        ensures loc { IfOk result (λ p. policy_location p ≡ loc) }
    {
        let any = Rc::new(alloc, Expr::val(Literal::Bool(true)))?;
        Ok(Policy {
            effect,
            id,
            annotations,
            principal: any.clone()?,
            action: any.clone()?,
            resource: any,
            when: expr,
            env: Rc::new(alloc, SlotEnv::new(alloc))?,
            loc,
        })
    }

    /// This policy at this location, or at no known one.
    pub fn with_maybe_source_loc(self, loc: Option<Loc>) -> Policy
        ensures view { policy_view result ≡ policy_view self }
        ensures parts { policy_parts result ≡ policy_parts self }
        ensures loc { policy_location result ≡ loc }
    {
        let Policy {
            effect,
            id,
            annotations,
            principal,
            action,
            resource,
            when,
            env,
            loc: _,
        } = self;
        Policy {
            effect,
            id,
            annotations,
            principal,
            action,
            resource,
            when,
            env,
            loc,
        }
    }

    /// The policy of this id that has the effect, the annotations, the parts and the location of this one, and in which
    /// these values stand for the slots: a template's policy. Refuses only if out of memory.
    pub fn link(&self, alloc: Global, id: PolicyID, env: SlotEnv) -> Result<Policy, AllocError>
        ensures view { IfOk result
            (λ p. policy_view p ≡ linked (policy_view self.now) (policy_id_text id) (slots_view env)) }
        ensures parts { IfOk result (λ p. policy_parts p ≡ policy_parts self.now) }
        ensures loc { IfOk result (λ p. policy_location p ≡ policy_location self.now) }
    {
        Ok(Policy {
            effect: self.effect,
            id,
            annotations: self.annotations.clone()?,
            principal: self.principal.clone()?,
            action: self.action.clone()?,
            resource: self.resource.clone()?,
            when: self.when.clone()?,
            env: Rc::new(alloc, env)?,
            loc: self.loc,
        })
    }

    /// The id.
    pub fn id(&self) -> &PolicyID
        ensures { policy_id_text result.now ≡ (policy_view self.now).id }
    {
        &self.id
    }

    /// The effect.
    pub fn effect(&self) -> Effect
        ensures { effect_view result ≡ (policy_view self.now).effect }
    {
        self.effect
    }

    /// The annotations.
    pub fn annotations_rc(&self) -> &Rc<Annotations>
        ensures { annotations_view result.now.value ≡ (policy_view self.now).annotations }
    {
        &self.annotations
    }

    /// The values of the slots.
    pub fn env(&self) -> &SlotEnv
        ensures { slots_view result.now ≡ (policy_view self.now).slots }
    {
        &self.env
    }

    /// Where the policy stands, if that is known.
    pub fn loc(&self) -> Option<Loc>
        ensures { result ≡ policy_location self.now }
    {
        self.loc
    }

    /// The constraint on the principal, as it was handed in.
    pub fn principal_constraint(&self) -> &Expr
        ensures whole { result.now ≡ (policy_parts self.now).principal }
        ensures view { view result.now ≡ (policy_view self.now).principal_constraint }
    {
        &*self.principal
    }

    /// The constraint on the action, as it was handed in.
    pub fn action_constraint(&self) -> &Expr
        ensures whole { result.now ≡ (policy_parts self.now).action }
        ensures view { view result.now ≡ (policy_view self.now).action_constraint }
    {
        &*self.action
    }

    /// The constraint on the resource, as it was handed in.
    pub fn resource_constraint(&self) -> &Expr
        ensures whole { result.now ≡ (policy_parts self.now).resource }
        ensures view { view result.now ≡ (policy_view self.now).resource_constraint }
    {
        &*self.resource
    }

    /// The when clause, as it was handed in.
    pub fn when_clause(&self) -> &Expr
        ensures whole { result.now ≡ (policy_parts self.now).when }
        ensures view { view result.now ≡ (policy_view self.now).when_clause }
    {
        &*self.when
    }

    /// The constraint on the principal, shared.
    pub fn principal_constraint_rc(&self) -> &Rc<Expr>
        ensures whole { result.now.value ≡ (policy_parts self.now).principal }
        ensures view { view result.now.value ≡ (policy_view self.now).principal_constraint }
    {
        &self.principal
    }

    /// The constraint on the action, shared.
    pub fn action_constraint_rc(&self) -> &Rc<Expr>
        ensures whole { result.now.value ≡ (policy_parts self.now).action }
        ensures view { view result.now.value ≡ (policy_view self.now).action_constraint }
    {
        &self.action
    }

    /// The constraint on the resource, shared.
    pub fn resource_constraint_rc(&self) -> &Rc<Expr>
        ensures whole { result.now.value ≡ (policy_parts self.now).resource }
        ensures view { view result.now.value ≡ (policy_view self.now).resource_constraint }
    {
        &self.resource
    }

    /// The when clause, shared.
    pub fn when_clause_rc(&self) -> &Rc<Expr>
        ensures whole { result.now.value ≡ (policy_parts self.now).when }
        ensures view { view result.now.value ≡ (policy_view self.now).when_clause }
    {
        &self.when
    }

    /// The condition, `((principal && action) && resource) && when`, each `&&` at the policy's location and each part
    /// as it was handed in. Its value is a boolean or an error. Refuses only if out of memory.
    pub fn condition(&self, alloc: Global) -> Result<Expr, AllocError>
        ensures view { IfOk result (λ e. view e ≡ condition_term (policy_view self.now)) }
        ensures parts { IfOk result (λ e. IsConditionOf (policy_parts self.now) (policy_location self.now) e) }
        ensures loc { IfOk result (λ e. expr_loc e ≡ policy_location self.now) }
    {
        let pair = self.conjunction(self.principal.clone()?, &self.action)?;
        let scope = self.conjunction(Rc::new(alloc, pair)?, &self.resource)?;
        let condition = self.conjunction(Rc::new(alloc, scope)?, &self.when)?;
        Ok(condition)
    }

    // `left && right`, at the policy's location.
    fn conjunction(&self, left: Rc<Expr>, right: &Rc<Expr>) -> Result<Expr, AllocError>
        ensures view { IfOk result (λ e. view e ≡ both (view left.value) (view right.now.value)) }
        ensures whole { IfOk result (λ e. IsConjunction (policy_location self.now) left.value right.now.value e) }
    {
        Ok(Expr::and_shared(left, right.clone()?).with_maybe_source_loc(self.loc))
    }
}

// All of them, to be shared.
fn shared_parts<A: Drop, E: Drop, T: Drop>(
    alloc: Global,
    annotations: A,
    env: E,
    principal: T,
    action: T,
    resource: T,
    when: T,
) -> Result<(Rc<A>, Rc<E>, Rc<T>, Rc<T>, Rc<T>, Rc<T>), AllocError>
    ensures annotations { IfOk result (λ p. p.0.value ≡ annotations) }
    ensures env { IfOk result (λ p. p.1.value ≡ env) }
    ensures principal { IfOk result (λ p. p.2.value ≡ principal) }
    ensures action { IfOk result (λ p. p.3.value ≡ action) }
    ensures resource { IfOk result (λ p. p.4.value ≡ resource) }
    ensures when { IfOk result (λ p. p.5.value ≡ when) }
{
    let annotations = Rc::new(alloc, annotations)?;
    let env = Rc::new(alloc, env)?;
    let principal = Rc::new(alloc, principal)?;
    let action = Rc::new(alloc, action)?;
    let resource = Rc::new(alloc, resource)?;
    let when = Rc::new(alloc, when)?;
    Ok((annotations, env, principal, action, resource, when))
}

impl Clone for Policy {
    ghost use Rattle.cedar_layers.specs.Policies.{IsCopy};

    ghost is_clone = { IsCopy };

    fn clone(&self) -> Result<Policy, AllocError> {
        Ok(Policy {
            effect: self.effect,
            id: self.id.clone()?,
            annotations: self.annotations.clone()?,
            principal: self.principal.clone()?,
            action: self.action.clone()?,
            resource: self.resource.clone()?,
            when: self.when.clone()?,
            env: self.env.clone()?,
            loc: self.loc,
        })
    }
}
