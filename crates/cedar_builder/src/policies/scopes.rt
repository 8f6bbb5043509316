#![tactic(auto, using(crate::proofs::Saying::saying))]
//! The scope of a policy in the making: what its principal, its action and its resource must be.
ghost use Rattle.std.specs.Prelude.{◌≡◌, Some, option_map};
ghost use Rattle.cedar_model.specs.Terms.{binary, variable, is_of_type};
ghost use Rattle.cedar_model.specs.Terms.{principal, action, resource, eq_operator, in_operator};
ghost use Rattle.cedar_builder.specs.Building.{term_of, term_in, of_two, is_of_type_in};
ghost use Rattle.cedar_builder.specs.Saying.{said, said_in, Says, SaysIn, with_principal, with_action, with_resource};

mod constraints;

use super::{PolicyBuilder, PolicyParts};
use crate::expressions::ExprBuilder;
use cedar_expressions::Expr;
use cedar_fallible::pair_of;
use cedar_names::{BinaryOp, Var};
use constraints::{compare_variable, test_variable_type, typed_in};
use std::alloc::AllocError;

/// The scope. What a variable is compared with is a literal of an entity (`entity`, `uid`), for `action_in` also a
/// `set` of such, and in a template a `slot`; any other expression is taken as well, and then no scope of Cedar's text
/// can say the constraint. Names of types are taken as they stand. A constraint that is said again takes the place of
/// the one before.
impl PolicyBuilder {
    /// `principal == uid`
    pub fn principal_eq(self, uid: ExprBuilder) -> PolicyBuilder
        ensures { Says result
            (of_two with_principal (said self) (option_map (binary eq_operator (variable principal)) (term_of uid))) }
    {
        let constraint = compare_variable(self.alloc, Var::Principal, BinaryOp::Eq, uid.built);
        self.with_principal(constraint)
    }

    /// `principal in uid`
    pub fn principal_in(self, uid: ExprBuilder) -> PolicyBuilder
        ensures { Says result
            (of_two with_principal (said self) (option_map (binary in_operator (variable principal)) (term_of uid))) }
    {
        let constraint = compare_variable(self.alloc, Var::Principal, BinaryOp::In, uid.built);
        self.with_principal(constraint)
    }

    /// `principal is ty`
    pub fn principal_is(self, ty: &str) -> PolicyBuilder
        ensures { Says result (of_two with_principal (said self) (Some (is_of_type (variable principal) ty.now))) }
    {
        let constraint = test_variable_type(self.alloc, Var::Principal, ty);
        self.with_principal(constraint)
    }

    /// `principal is ty in uid`
    pub fn principal_is_in(self, ty: &str, uid: ExprBuilder) -> PolicyBuilder
        ensures { Says result
            (of_two with_principal (said self) (option_map (is_of_type_in ty.now (variable principal)) (term_of uid))) }
    {
        let constraint = typed_in(self.alloc, Var::Principal, ty, uid.built);
        self.with_principal(constraint)
    }

    /// `action == uid`
    pub fn action_eq(self, uid: ExprBuilder) -> PolicyBuilder
        ensures { Says result
            (of_two with_action (said self) (option_map (binary eq_operator (variable action)) (term_of uid))) }
    {
        let constraint = compare_variable(self.alloc, Var::Action, BinaryOp::Eq, uid.built);
        self.with_action(constraint)
    }

    /// `action in uid`, or `action in [uid, ..]`, of a set.
    pub fn action_in(self, uid: ExprBuilder) -> PolicyBuilder
        ensures { Says result
            (of_two with_action (said self) (option_map (binary in_operator (variable action)) (term_of uid))) }
    {
        let constraint = compare_variable(self.alloc, Var::Action, BinaryOp::In, uid.built);
        self.with_action(constraint)
    }

    /// `resource == uid`
    pub fn resource_eq(self, uid: ExprBuilder) -> PolicyBuilder
        ensures { Says result
            (of_two with_resource (said self) (option_map (binary eq_operator (variable resource)) (term_of uid))) }
    {
        let constraint = compare_variable(self.alloc, Var::Resource, BinaryOp::Eq, uid.built);
        self.with_resource(constraint)
    }

    /// `resource in uid`
    pub fn resource_in(self, uid: ExprBuilder) -> PolicyBuilder
        ensures { Says result
            (of_two with_resource (said self) (option_map (binary in_operator (variable resource)) (term_of uid))) }
    {
        let constraint = compare_variable(self.alloc, Var::Resource, BinaryOp::In, uid.built);
        self.with_resource(constraint)
    }

    /// `resource is ty`
    pub fn resource_is(self, ty: &str) -> PolicyBuilder
        ensures { Says result (of_two with_resource (said self) (Some (is_of_type (variable resource) ty.now))) }
    {
        let constraint = test_variable_type(self.alloc, Var::Resource, ty);
        self.with_resource(constraint)
    }

    /// `resource is ty in uid`
    pub fn resource_is_in(self, ty: &str, uid: ExprBuilder) -> PolicyBuilder
        ensures { Says result
            (of_two with_resource (said self) (option_map (is_of_type_in ty.now (variable resource)) (term_of uid))) }
    {
        let constraint = typed_in(self.alloc, Var::Resource, ty, uid.built);
        self.with_resource(constraint)
    }

    // The policy with this constraint on the principal.
    fn with_principal(self, constraint: Result<Expr, AllocError>) -> PolicyBuilder
        ensures { Says result (of_two with_principal (said self) (term_in constraint)) }
    {
        let PolicyBuilder { alloc, parts } = self;
        PolicyBuilder {
            alloc,
            parts: principal_constrained(parts, constraint),
        }
    }

    // The same of the action.
    fn with_action(self, constraint: Result<Expr, AllocError>) -> PolicyBuilder
        ensures { Says result (of_two with_action (said self) (term_in constraint)) }
    {
        let PolicyBuilder { alloc, parts } = self;
        PolicyBuilder {
            alloc,
            parts: action_constrained(parts, constraint),
        }
    }

    // The same of the resource.
    fn with_resource(self, constraint: Result<Expr, AllocError>) -> PolicyBuilder
        ensures { Says result (of_two with_resource (said self) (term_in constraint)) }
    {
        let PolicyBuilder { alloc, parts } = self;
        PolicyBuilder {
            alloc,
            parts: resource_constrained(parts, constraint),
        }
    }
}

fn principal_constrained(
    parts: Result<PolicyParts, AllocError>,
    constraint: Result<Expr, AllocError>,
) -> Result<PolicyParts, AllocError>
    ensures { SaysIn result (of_two with_principal (said_in parts) (term_in constraint)) }
{
    let (parts, constraint) = pair_of(parts, constraint)?;
    let PolicyParts {
        effect,
        id,
        annotations,
        principal: _,
        action,
        resource,
        condition,
    } = parts;
    Ok(PolicyParts {
        effect,
        id,
        annotations,
        principal: constraint,
        action,
        resource,
        condition,
    })
}

fn action_constrained(
    parts: Result<PolicyParts, AllocError>,
    constraint: Result<Expr, AllocError>,
) -> Result<PolicyParts, AllocError>
    ensures { SaysIn result (of_two with_action (said_in parts) (term_in constraint)) }
{
    let (parts, constraint) = pair_of(parts, constraint)?;
    let PolicyParts {
        effect,
        id,
        annotations,
        principal,
        action: _,
        resource,
        condition,
    } = parts;
    Ok(PolicyParts {
        effect,
        id,
        annotations,
        principal,
        action: constraint,
        resource,
        condition,
    })
}

fn resource_constrained(
    parts: Result<PolicyParts, AllocError>,
    constraint: Result<Expr, AllocError>,
) -> Result<PolicyParts, AllocError>
    ensures { SaysIn result (of_two with_resource (said_in parts) (term_in constraint)) }
{
    let (parts, constraint) = pair_of(parts, constraint)?;
    let PolicyParts {
        effect,
        id,
        annotations,
        principal,
        action,
        resource: _,
        condition,
    } = parts;
    Ok(PolicyParts {
        effect,
        id,
        annotations,
        principal,
        action,
        resource: constraint,
        condition,
    })
}
