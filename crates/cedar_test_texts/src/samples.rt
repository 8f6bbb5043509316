//! Policies that are made in code, under the names that rows ask for.
use crate::answer::Answer;
use cedar_builder::{
    ExprBuilder, PolicyBuilder, action, boolean, call, context, entity, expr, field, forbid,
    if_then_else, long, permit, principal, record, resource, set, slot, text, uid, unknown,
    unknown_with_type,
};
use cedar_expressions::Expr;
use cedar_names::{EntityUID, Literal, SlotId, Type};
use std::alloc::{AllocError, Global};

/// The policy of this name. What memory ran out for beside the policy is noted in the answer.
pub fn sample(answer: &mut Answer, name: &str) -> Option<PolicyBuilder> {
    let alloc = answer.alloc;
    match name {
        "permit" => Some(permit(alloc, "policy")),
        "forbid" => Some(forbid(alloc, "policy")),
        "principal and resource" => Some(principal_and_resource(alloc)),
        "principal is, action in" => Some(principal_is(alloc)),
        "is in" => Some(is_in(alloc)),
        "slots" => Some(slots(alloc)),
        "said again" => Some(said_again(alloc)),
        "one clause" => Some(forbid(alloc, "policy").unless(boolean(alloc, true))),
        "clauses" => Some(clauses(alloc)),
        _ => of_expression(answer, name),
    }
}

// The same, where the policy says one expression.
fn of_expression(answer: &mut Answer, name: &str) -> Option<PolicyBuilder> {
    match expression(answer, name) {
        Some(said) => Some(permit(answer.alloc, "policy").when(said)),
        None => None,
    }
}

fn expression(answer: &mut Answer, name: &str) -> Option<ExprBuilder> {
    let alloc = answer.alloc;
    match name {
        "literals" => Some(literals(answer)),
        "comparisons" => Some(comparisons(alloc)),
        "numbers" => Some(numbers(alloc)),
        "sets" => Some(sets(alloc)),
        "entities" => Some(entities(alloc)),
        "attributes" => Some(attributes(alloc)),
        "extended has" => Some(extended_has(alloc)),
        "like" => Some(like(alloc)),
        "conditional" => Some(conditional(alloc)),
        "unknowns" => Some(unknowns(alloc)),
        _ => None,
    }
}

fn principal_and_resource(alloc: Global) -> PolicyBuilder {
    permit(alloc, "policy")
        .principal_eq(entity(alloc, "User", "alice"))
        .action_eq(entity(alloc, "Action", "view"))
        .resource_in(entity(alloc, "App::Folder", "a \"b\""))
}

fn principal_is(alloc: Global) -> PolicyBuilder {
    let actions = [
        entity(alloc, "Action", "view"),
        entity(alloc, "Action", "edit"),
    ];
    forbid(alloc, "policy")
        .principal_is("App::User")
        .action_in(set(alloc, actions))
        .resource_is("Doc")
}

fn is_in(alloc: Global) -> PolicyBuilder {
    permit(alloc, "policy")
        .principal_is_in("User", entity(alloc, "Group", "g"))
        .action_in(entity(alloc, "Action", "read"))
        .resource_is_in("Doc", entity(alloc, "Folder", "f"))
}

fn slots(alloc: Global) -> PolicyBuilder {
    permit(alloc, "policy")
        .principal_in(slot(alloc, SlotId::Principal))
        .resource_eq(slot(alloc, SlotId::Resource))
}

fn said_again(alloc: Global) -> PolicyBuilder {
    permit(alloc, "policy")
        .annotation("id", "first")
        .annotation("advice", "a\nb")
        .annotation("id", "second")
        .principal_is("User")
        .principal_in(entity(alloc, "Group", "g"))
}

fn clauses(alloc: Global) -> PolicyBuilder {
    forbid(alloc, "policy")
        .when(context(alloc).attr("a"))
        .unless(context(alloc).attr("b"))
        .when(context(alloc).attr("c").or(context(alloc).attr("d")))
}

fn literals(answer: &mut Answer) -> ExprBuilder {
    let alloc = answer.alloc;
    let named = uid_literal(answer, EntityUID::of(alloc, "User", "bob"));
    let all = [
        boolean(alloc, false),
        long(alloc, -5),
        text(alloc, "a*\n"),
        named,
    ];
    set(alloc, all).contains(seven(alloc))
}

fn seven(alloc: Global) -> ExprBuilder {
    expr(alloc, Expr::val(Literal::Long(7)))
}

fn uid_literal(answer: &mut Answer, named: Result<EntityUID, AllocError>) -> ExprBuilder {
    match named {
        Ok(named) => uid(answer.alloc, named),
        Err(_) => {
            answer.lack_memory();
            boolean(answer.alloc, false)
        }
    }
}

fn comparisons(alloc: Global) -> ExprBuilder {
    below(alloc).or(above(alloc)).or(equal_or_not(alloc))
}

fn below(alloc: Global) -> ExprBuilder {
    let less = long(alloc, 1).less(long(alloc, 2));
    less.and(long(alloc, 3).lesseq(long(alloc, 4)))
}

fn above(alloc: Global) -> ExprBuilder {
    let greater = long(alloc, 5).greater(long(alloc, 6));
    greater.and(long(alloc, 7).greatereq(long(alloc, 8)))
}

fn equal_or_not(alloc: Global) -> ExprBuilder {
    let equal = principal(alloc).is_eq(resource(alloc));
    equal.and(action(alloc).noteq(context(alloc)))
}

fn numbers(alloc: Global) -> ExprBuilder {
    product(alloc)
        .sub(long(alloc, 4).neg())
        .is_eq(long(alloc, 13))
}

fn product(alloc: Global) -> ExprBuilder {
    long(alloc, 1).add(long(alloc, 2)).mul(long(alloc, 3))
}

fn sets(alloc: Global) -> ExprBuilder {
    has_all(alloc)
        .and(has_any(alloc))
        .and(set(alloc, []).is_empty().not())
}

fn has_all(alloc: Global) -> ExprBuilder {
    context(alloc)
        .attr("a")
        .contains_all(set(alloc, [long(alloc, 1)]))
}

fn has_any(alloc: Global) -> ExprBuilder {
    context(alloc)
        .attr("b")
        .contains_any(context(alloc).attr("c"))
}

fn entities(alloc: Global) -> ExprBuilder {
    in_or_is(alloc).or(is_in_folder(alloc)).or(tags(alloc))
}

fn in_or_is(alloc: Global) -> ExprBuilder {
    principal(alloc)
        .is_in(resource(alloc))
        .and(principal(alloc).is_entity_type("User"))
}

fn is_in_folder(alloc: Global) -> ExprBuilder {
    resource(alloc).is_in_entity_type("Doc", entity(alloc, "Folder", "f"))
}

fn tags(alloc: Global) -> ExprBuilder {
    let has = resource(alloc).has_tag(text(alloc, "t"));
    has.and(
        resource(alloc)
            .get_tag(text(alloc, "t"))
            .is_eq(text(alloc, "x")),
    )
}

fn attributes(alloc: Global) -> ExprBuilder {
    let equal = fields(alloc)
        .attr("a c")
        .is_eq(context(alloc).attr("d").attr("e f"));
    equal.and(context(alloc).has_attr("g"))
}

fn fields(alloc: Global) -> ExprBuilder {
    let fields = [
        field("b", long(alloc, 1)),
        field("a c", text(alloc, "x")),
        field("b", long(alloc, 2)),
    ];
    record(alloc, fields)
}

fn extended_has(alloc: Global) -> ExprBuilder {
    let deep = principal(alloc).extended_has_attr("a", &["b", "c"]);
    deep.and(context(alloc).attr("d").extended_has_attr("e", &["f"]))
}

fn like(alloc: Global) -> ExprBuilder {
    context(alloc).attr("name").like("*.\\*\\\\.j*\\pg")
}

fn conditional(alloc: Global) -> ExprBuilder {
    let open = call(
        alloc,
        "isOpen",
        [context(alloc).attr("hour"), long(alloc, 9)],
    );
    if_then_else(open, boolean(alloc, true), call(alloc, "App::never", []))
}

fn unknowns(alloc: Global) -> ExprBuilder {
    unknown(alloc, "x").or(unknown_with_type(alloc, "y", Type::Bool))
}
