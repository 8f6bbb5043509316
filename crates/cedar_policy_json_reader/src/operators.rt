#![tactic(auto)]
//! Operators, variables and types by their names, and what is made of parts.
ghost use Rattle.std.specs.Prelude.{◌≡◌, option_map, IfOk};
ghost use Rattle.cedar_policy_json_reader.specs.declared.operators.Connection.TheVariants as connections;
ghost use Rattle.cedar_names.specs.Leaves.{unary_view, variable_view, type_view};
ghost use Rattle.cedar_expressions.specs.View.{view};
ghost use Rattle.cedar_policy_json_reader.specs.Names as names;

use cedar_expressions::Expr;
use cedar_names::{BinaryOp, Type, UnaryOp, Var};
use std::alloc::{AllocError, Global};

/// How two parts are connected: by an operator, by the negation of one, by `&&`, or by `||`.
#[derive(Clone, Copy)]
pub(crate) enum Connection {
    Plain(BinaryOp),
    Negated(BinaryOp),
    And,
    Or,
}

/// The operator on two parts that has this name.
pub(crate) fn connection_named(name: &str) -> Option<Connection>
    ensures { option_map names.connection_view result ≡ names.two_part_named name.now }
{
    match comparison_named(name) {
        Some(connection) => Some(connection),
        None => match connective_named(name) {
            Some(connection) => Some(connection),
            None => method_named(name),
        },
    }
}

fn comparison_named(name: &str) -> Option<Connection>
    ensures { option_map names.connection_view result ≡ names.comparison_named name.now }
{
    if name == "==" {
        Some(Connection::Plain(BinaryOp::Eq))
    } else if name == "!=" {
        Some(Connection::Negated(BinaryOp::Eq))
    } else if name == "<" {
        Some(Connection::Plain(BinaryOp::Less))
    } else if name == "<=" {
        Some(Connection::Plain(BinaryOp::LessEq))
    } else if name == ">" {
        Some(Connection::Negated(BinaryOp::LessEq))
    } else if name == ">=" {
        Some(Connection::Negated(BinaryOp::Less))
    } else {
        None
    }
}

fn connective_named(name: &str) -> Option<Connection>
    ensures { option_map names.connection_view result ≡ names.connective_named name.now }
{
    if name == "&&" {
        Some(Connection::And)
    } else if name == "||" {
        Some(Connection::Or)
    } else if name == "+" {
        Some(Connection::Plain(BinaryOp::Add))
    } else if name == "-" {
        Some(Connection::Plain(BinaryOp::Sub))
    } else if name == "*" {
        Some(Connection::Plain(BinaryOp::Mul))
    } else if name == "in" {
        Some(Connection::Plain(BinaryOp::In))
    } else {
        None
    }
}

fn method_named(name: &str) -> Option<Connection>
    ensures { option_map names.connection_view result ≡ names.method_named name.now }
{
    if name == "contains" {
        Some(Connection::Plain(BinaryOp::Contains))
    } else if name == "containsAll" {
        Some(Connection::Plain(BinaryOp::ContainsAll))
    } else if name == "containsAny" {
        Some(Connection::Plain(BinaryOp::ContainsAny))
    } else if name == "getTag" {
        Some(Connection::Plain(BinaryOp::GetTag))
    } else if name == "hasTag" {
        Some(Connection::Plain(BinaryOp::HasTag))
    } else {
        None
    }
}

/// The operator on one part that has this name.
pub(crate) fn unary_named(name: &str) -> Option<UnaryOp>
    ensures { option_map unary_view result ≡ names.unary_named name.now }
{
    if name == "!" {
        Some(UnaryOp::Not)
    } else if name == "neg" {
        Some(UnaryOp::Neg)
    } else if name == "isEmpty" {
        Some(UnaryOp::IsEmpty)
    } else {
        None
    }
}

/// The variable of this name.
pub(crate) fn variable_named(name: &str) -> Option<Var>
    ensures { option_map variable_view result ≡ names.variable_named name.now }
{
    if name == "principal" {
        Some(Var::Principal)
    } else if name == "action" {
        Some(Var::Action)
    } else if name == "resource" {
        Some(Var::Resource)
    } else if name == "context" {
        Some(Var::Context)
    } else {
        None
    }
}

/// The type of this name, of those that have no name of their own.
pub(crate) fn type_named(name: &str) -> Option<Type>
    ensures { option_map type_view result ≡ names.type_named name.now }
{
    if name == "Boolean" {
        Some(Type::Bool)
    } else if name == "Long" {
        Some(Type::Long)
    } else if name == "String" {
        Some(Type::String)
    } else if name == "Set" {
        Some(Type::Set)
    } else if name == "Record" {
        Some(Type::Record)
    } else {
        None
    }
}

/// The expression of these parts, connected so.
pub(crate) fn connect(
    alloc: Global,
    connection: Connection,
    parts: (Expr, Expr),
) -> Result<Expr, AllocError>
    ensures { IfOk result (λ e. view e
        ≡ names.two_part_term (names.connection_view connection) (view parts.0) (view parts.1)) }
{
    let (left, right) = parts;
    match connection {
        Connection::Plain(op) => Expr::binary_app(alloc, op, left, right),
        Connection::Negated(op) => negated(alloc, op, left, right),
        Connection::And => Expr::and(alloc, left, right),
        Connection::Or => Expr::or(alloc, left, right),
    }
}

// `!(left op right)`
fn negated(alloc: Global, op: BinaryOp, left: Expr, right: Expr) -> Result<Expr, AllocError>
    ensures { IfOk result (λ e. view e
        ≡ names.two_part_term (names.connection_view (connections.Negated op)) (view left) (view right)) }
{
    match Expr::binary_app(alloc, op, left, right) {
        Ok(compared) => Expr::unary_app(alloc, UnaryOp::Not, compared),
        Err(error) => Err(error),
    }
}
