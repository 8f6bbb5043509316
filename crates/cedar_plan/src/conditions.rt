//! What a residual asks of a row.
ghost use Rattle.std.specs.Prelude.{◌≡◌, IfOk, option_map};
ghost use Rattle.std.specs.Rc.{rc_str_bytes};
ghost use Rattle.cedar_names.specs.Leaves.{type_view};
ghost use Rattle.cedar_expressions.specs.View.{view};
ghost use Rattle.cedar_layers.specs.Stores.{entity_name, entity_view};
ghost use Rattle.cedar_filter.specs.Truths.{truth_told};
ghost use Rattle.cedar_plan.specs.Planned.{planned, planned_of, rest_of, condition_view};
ghost use Rattle.cedar_plan.specs.Told.{counts_as, counts_at};

use cedar_expressions::Expr;
use cedar_filter::{Filter, NoFilter, Truth, simplified};
use cedar_layers::policies::Entity;
use cedar_names::Unknown;
use std::alloc::{AllocError, Global};

/// What a residual asks of a row.
#[derive(Drop)]
pub enum RowCondition {
    /// Its condition, simplified.
    Filter(Filter),
    /// It is no condition on one row: this is the first part of it, simplified, that is none.
    Rest(Expr),
}

// What this residual asks of a row that stands for the unknown.
pub(crate) fn condition_of(
    alloc: Global,
    residual: &Expr,
    row: &Unknown,
) -> Result<RowCondition, AllocError>
    ensures { IfOk result (λ c. condition_view c ≡ planned (rc_str_bytes row.now.name)
        (option_map type_view row.now.type_annotation) (view residual.now)) }
{
    let condition = simplified(alloc, residual)?;
    let made = condition_made(alloc, &condition, row);
    drop(condition);
    made
}

// The same of an expression that is simplified.
fn condition_made(
    alloc: Global,
    condition: &Expr,
    row: &Unknown,
) -> Result<RowCondition, AllocError>
    ensures { IfOk result (λ c. condition_view c ≡ planned_of (rc_str_bytes row.now.name)
        (option_map type_view row.now.type_annotation) (view condition.now)) }
{
    match Filter::of(alloc, condition, row) {
        Ok(filter) => Ok(RowCondition::Filter(filter)),
        Err(refusal) => match refusal {
            NoFilter::Part(part) => rest_of(part),
            NoFilter::Memory => Err(AllocError),
        },
    }
}

fn rest_of(part: &Expr) -> Result<RowCondition, AllocError>
    ensures { IfOk result (λ c. condition_view c ≡ rest_of (view part.now)) }
{
    Ok(RowCondition::Rest(part.clone()?))
}

// Whether the policy counts as satisfied at this row, if an erring one counts so: `None` if the row does not tell.
pub(crate) fn counts_at(condition: &RowCondition, entity: &Entity, errs_count: bool) -> Option<bool>
    ensures { result ≡ counts_at errs_count (entity_name entity.now) (entity_view entity.now)
        (condition_view condition.now) }
{
    match condition {
        RowCondition::Filter(filter) => match filter.passes(entity) {
            Some(truth) => counts_as(truth, errs_count),
            None => None,
        },
        RowCondition::Rest(_) => None,
    }
}

#[tactic(auto, unfolding(cedar_model::specs::Policies::verdict))]
fn counts_as(truth: Truth, errs_count: bool) -> Option<bool>
    ensures { result ≡ counts_as errs_count (truth_told truth) }
{
    match truth {
        Truth::Holds => Some(true),
        Truth::Fails => Some(false),
        Truth::Errs(_) => Some(errs_count),
        Truth::Untold => None,
    }
}
