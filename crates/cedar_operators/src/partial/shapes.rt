//! What residuals are: records of parts, and unknowns annotated with an entity type.
ghost use Rattle.std.specs.Prelude.{◌≡◌, Some, None, option_map};
ghost use Rattle.std.specs.Option.{MatchOption};
ghost use Rattle.cedar_model.specs.Rules.{fields_of_record, entity_type_of_residual, annotated_type, entity_type_of};
ghost use Rattle.cedar_names.specs.Names.{type_text};
ghost use Rattle.cedar_names.specs.Leaves.{type_view};
ghost use Rattle.cedar_expressions.specs.View.{view, fields_view};
ghost use Rattle.cedar_values.specs.Residuals.{partial_view};

use cedar_layers::expressions::{EntityType, Expr, PartialValue, Type, Unknown};
use cedar_values::entity_in;
use std::collections::BTreeMap;
use std::rc::RcStr;

// The parts of a record under their keys, if the expression is one.
pub(crate) fn fields_in(e: &Expr) -> Option<&BTreeMap<RcStr, Expr>>
    ensures { MatchOption result (fields_of_record (view e.now) ≡ None) (λ m. fields_of_record (view e.now)
        ≡ Some (fields_view m.now.entries)) }
{
    match e.as_record() {
        Some(pairs) => Some(pairs),
        None => None,
    }
}

// The entity type that an unknown is annotated with, if the expression is one.
#[tactic(auto, using(crate::proofs::Types::no_type), unfolding(cedar_model::specs::Rules::entity_type_of_residual))]
pub(crate) fn type_in_residual(e: &Expr) -> Option<&EntityType>
    ensures { MatchOption result (entity_type_of_residual (view e.now)
        ≡ None) (λ t. entity_type_of_residual (view e.now) ≡ Some (type_text t.now)) }
{
    match e.as_unknown() {
        Some(unknown) => annotated_type(unknown),
        None => None,
    }
}

// The entity type that the unknown is annotated with.
#[tactic(auto, unfolding(cedar_model::specs::Rules::annotated_type))]
fn annotated_type(unknown: &Unknown) -> Option<&EntityType>
    ensures { MatchOption result (annotated_type (option_map type_view unknown.now.type_annotation)
        ≡ None) (λ t. annotated_type (option_map type_view unknown.now.type_annotation) ≡ Some (type_text t.now)) }
{
    match &unknown.type_annotation {
        Some(annotation) => match annotation {
            Type::Bool => None,
            Type::Long => None,
            Type::String => None,
            Type::Set => None,
            Type::Record => None,
            Type::Entity { ty } => Some(ty),
            Type::Extension { name: _ } => None,
        },
        None => None,
    }
}

// The entity type of a part: an entity's, or that which an unknown is annotated with.
#[tactic(auto, unfolding(cedar_model::specs::Rules::entity_type_of, cedar_model::specs::Rules::type_of_entity))]
pub(crate) fn type_in_part(part: &PartialValue) -> Option<&EntityType>
    ensures { MatchOption result (entity_type_of (partial_view part.now)
        ≡ None) (λ t. entity_type_of (partial_view part.now) ≡ Some (type_text t.now)) }
{
    match part {
        PartialValue::Value(value) => match entity_in(value) {
            Some(uid) => Some(uid.entity_type()),
            None => None,
        },
        PartialValue::Residual(residual) => type_in_residual(residual.as_expr()),
    }
}
