//! What is said of a plan in SQL is what it tells. Each function is a law, and does nothing.
ghost use Rattle.cedar_sql_plan.specs.Telling.{SaidIsTold, SaidIsAllThatIsTold};

use cedar_plan::Plan;
use cedar_sql::Columns;

/// A decision that the policies give of which there is SQL is the one that the plan tells of the entity of a row
/// (`decisions`). Where SQL says each filter of the plan, the plan tells no other (`exact`): `allowed` is 1 exactly where
/// `allows` answers Allow, and `candidates` 0 exactly where it answers Deny or the entity can't stand for the unknown.
pub fn said_is_told(plan: &Plan, columns: &Columns)
    ensures decisions { SaidIsTold plan.now columns.now }
    ensures exact { SaidIsAllThatIsTold plan.now columns.now }
{}
