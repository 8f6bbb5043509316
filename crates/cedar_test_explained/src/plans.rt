//! What is left of policies where the resource is not known, as SQL on the rows of a table: `ALLOWED | CANDIDATES`.
use crate::answer::{Answer, Unanswered};
use crate::columns::{Table, asked_type, read_table};
use crate::given::{LEVELS, mode_of, read_request, read_type};
use crate::setting::Setting;
use cedar_authorizer::authorizer::{Authorizer, PartialResponse};
use cedar_extensions::Extensions;
use cedar_layers::policies::{Entities, PolicySet};
use cedar_names::{Type, Unknown};
use cedar_plan::{NoPlan, Plan};
use cedar_requests::EntityUIDEntry;
use cedar_sql::term_to_sql;
use cedar_sql_plan::sql_of_plan;
use std::alloc::Global;
use std::rc::RcStr;

/// Plans the policies for the table of the setting, over this store.
pub fn plan_asked(
    answer: &mut Answer,
    setting: Setting<'_>,
    policies: &PolicySet,
    entities: &Entities,
) {
    match answered(answer.alloc, setting, policies, entities) {
        Ok(response) => {
            plan(answer, setting, &response);
            drop(response);
        }
        Err(why) => answer.fail(why),
    }
}

fn answered(
    alloc: Global,
    setting: Setting<'_>,
    policies: &PolicySet,
    entities: &Entities,
) -> Result<PartialResponse, Unanswered> {
    let extensions = Extensions::all_available();
    let authorizer = Authorizer::new(&extensions, LEVELS).with_error_handling(mode_of(setting));
    let resource = unknown_resource(alloc, setting)?;
    let request = read_request(alloc, setting, resource)?;
    Ok(authorizer.is_authorized_core(alloc, request, policies, entities)?)
}

// A resource of the type that is asked for.
fn unknown_resource(alloc: Global, setting: Setting<'_>) -> Result<EntityUIDEntry, Unanswered> {
    match asked_type(setting.columns) {
        None => Ok(EntityUIDEntry::unknown()),
        Some(ty) => Ok(EntityUIDEntry::unknown_with_type(read_type(alloc, ty)?, None)),
    }
}

// The unknown that the rows stand for.
fn read_row(alloc: Global, setting: Setting<'_>) -> Result<Unknown, Unanswered> {
    let type_annotation = match asked_type(setting.columns) {
        None => None,
        Some(ty) => Some(Type::Entity {
            ty: read_type(alloc, ty)?,
        }),
    };
    Ok(Unknown {
        name: RcStr::from_str(alloc, "resource")?,
        type_annotation,
    })
}

fn plan(answer: &mut Answer, setting: Setting<'_>, response: &PartialResponse) {
    match planned(answer.alloc, setting, response) {
        Ok(plan) => {
            write_plan(answer, setting, &plan);
            drop(plan);
        }
        Err(why) => answer.fail(why),
    }
}

fn planned(
    alloc: Global,
    setting: Setting<'_>,
    response: &PartialResponse,
) -> Result<Plan, Unanswered> {
    let row = read_row(alloc, setting)?;
    match Plan::of(alloc, response, &row) {
        Ok(plan) => Ok(plan),
        Err(NoPlan::RecursionLimit) => Err(Unanswered::Unreadable("the limit of levels is met")),
        Err(NoPlan::Memory) => Err(Unanswered::Memory),
    }
}

fn write_plan(answer: &mut Answer, setting: Setting<'_>, plan: &Plan) {
    match read_table(answer.alloc, setting.columns) {
        Ok(table) => {
            put_plan(answer, plan, &table);
            drop(table);
        }
        Err(why) => answer.fail(why),
    }
}

fn put_plan(answer: &mut Answer, plan: &Plan, table: &Table) {
    match sql_of_plan(answer.alloc, plan, &table.columns) {
        Ok(terms) => {
            answer.put_made(term_to_sql(answer.alloc, &terms.allowed, &table.names));
            answer.put(" | ");
            answer.put_made(term_to_sql(answer.alloc, &terms.candidates, &table.names));
            drop(terms);
        }
        Err(_) => answer.fail(Unanswered::Memory),
    }
}
