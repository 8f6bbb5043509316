#![tactic(auto, using(crate::proofs::Levels::levels, crate::proofs::NodeLevels::nodes))]
//! Expressions: the 17 kinds, how each is made, and what is read of one.
ghost use Rattle.std.specs.Prelude.{◌≡◌, IfOk};

mod copies;
mod equality;
mod hashing;
mod literals;
mod made;
mod readers;
mod record;
mod shape;
mod substitution;

use cedar_names::{
    BinaryOp, EntityType, FirstRest, Literal, Loc, Name, Pattern, SlotId, UnaryOp, Unknown, Var,
};
pub use equality::same_call;
use std::alloc::{AllocError, Global};
use std::collections::BTreeMap;
use std::rc::{Rc, RcStr};
pub use substitution::AsExpression;

/// An expression: its kind with its parts, and where it stands in its source, if that is known.
#[cycle(expr)]
#[derive(Debug)]
pub struct Expr {
    expr_kind: ExprKind,
    source_loc: Option<Loc>,
}

impl Drop for Expr {
    #[cycle(expr)]
    fn drop(self) {
        match self {
            Expr {
                expr_kind: _,
                source_loc: _,
            } => {}
        }
    }
}

/// The kind of an expression, with its parts.
#[cycle(expr)]
#[derive(Debug, Drop)]
pub enum ExprKind {
    /// A literal.
    Lit(Literal),
    /// A variable of the request.
    Var(Var),
    /// A slot of a template.
    Slot(SlotId),
    /// A value that is not known yet.
    Unknown(Unknown),
    /// `if test_expr then then_expr else else_expr`
    If {
        test_expr: Rc<Expr>,
        then_expr: Rc<Expr>,
        else_expr: Rc<Expr>,
    },
    /// `left && right`
    And {
        left: Rc<Expr>,
        right: Rc<Expr>,
    },
    /// `left || right`
    Or {
        left: Rc<Expr>,
        right: Rc<Expr>,
    },
    /// An operator on one part.
    UnaryApp {
        op: UnaryOp,
        arg: Rc<Expr>,
    },
    /// An operator on two parts.
    BinaryApp {
        op: BinaryOp,
        arg1: Rc<Expr>,
        arg2: Rc<Expr>,
    },
    /// A call of an extension function.
    ExtensionFunctionApp {
        fn_name: Name,
        args: Rc<Vec<Expr>>,
    },
    /// `expr.attr`
    GetAttr {
        expr: Rc<Expr>,
        attr: RcStr,
    },
    /// `expr has attr`
    HasAttr {
        expr: Rc<Expr>,
        attr: RcStr,
    },
    /// `expr has first.second..`
    ExtHasAttr {
        expr: Rc<Expr>,
        attrs: Rc<FirstRest<RcStr>>,
    },
    /// `expr like pattern`
    Like {
        expr: Rc<Expr>,
        pattern: Pattern,
    },
    /// `expr is entity_type`
    Is {
        expr: Rc<Expr>,
        entity_type: EntityType,
    },
    /// A set of parts.
    Set(Rc<Vec<Expr>>),
    /// A record: its parts under their keys.
    Record(Rc<BTreeMap<RcStr, Expr>>),
}

impl Expr {
    ghost use Rattle.std.specs.Prelude.{◌≡◌, IfOk, None, option_copied, option_map};
    ghost use Rattle.std.specs.Rc.{rc_str_bytes};
    ghost use Rattle.cedar_model.specs.Terms.{literal, variable, slot, unknown, if_then_else, both, either};
    ghost use Rattle.cedar_model.specs.Terms.{unary, binary, call, get_attribute, has_attribute, like};
    ghost use Rattle.cedar_model.specs.Terms.{is_of_type, set_of};
    ghost use Rattle.cedar_names.specs.Names.{name_text, type_text};
    ghost use Rattle.cedar_names.specs.Leaves.{slot_view, variable_view, unary_view, binary_view};
    ghost use Rattle.cedar_names.specs.Leaves.{pattern_view, type_view, literal_view};
    ghost use Rattle.cedar_expressions.specs.View.{view, kind_view, expr_loc, expr_kind_of, terms_view};
    ghost use Rattle.cedar_expressions.specs.View.{extended_has_of};
    ghost use Rattle.cedar_expressions.specs.Nodes.{node_of};
    ghost use Rattle.cedar_expressions.specs.Nodes as node;

    /// The kind of the expression, with its parts.
    pub fn expr_kind(&self) -> &ExprKind
        ensures node { result.now ≡ expr_kind_of self.now }
        ensures view { kind_view result.now ≡ view self.now }
    {
        &self.expr_kind
    }

    /// Where the expression stands in its source, if that is known.
    pub fn source_loc(&self) -> Option<&Loc>
        ensures { option_copied result ≡ expr_loc self.now }
    {
        self.source_loc.as_ref()
    }

    /// The same expression with this location, or with none.
    pub fn with_maybe_source_loc(self, source_loc: Option<Loc>) -> Expr
        ensures view { view result ≡ view self }
        ensures kind { expr_kind_of result ≡ expr_kind_of self }
        ensures loc { expr_loc result ≡ source_loc }
    {
        let Expr {
            expr_kind,
            source_loc: _,
        } = self;
        Expr {
            expr_kind,
            source_loc,
        }
    }

    /// A literal.
    pub fn val(value: Literal) -> Expr
        ensures view { view result ≡ literal (literal_view value) }
        ensures kind { node_of result ≡ node.Lit value }
        ensures loc { expr_loc result ≡ None }
    {
        Expr::of_kind(ExprKind::Lit(value))
    }

    /// A variable of the request.
    pub fn var(var: Var) -> Expr
        ensures view { view result ≡ variable (variable_view var) }
        ensures kind { node_of result ≡ node.Var var }
        ensures loc { expr_loc result ≡ None }
    {
        Expr::of_kind(ExprKind::Var(var))
    }

    /// A slot of a template.
    pub fn slot(slot_id: SlotId) -> Expr
        ensures view { view result ≡ slot (slot_view slot_id) }
        ensures kind { node_of result ≡ node.Slot slot_id }
        ensures loc { expr_loc result ≡ None }
    {
        Expr::of_kind(ExprKind::Slot(slot_id))
    }

    /// A value that is not known yet.
    pub fn unknown(value: Unknown) -> Expr
        ensures view { view result ≡ unknown (rc_str_bytes value.name) (option_map type_view value.type_annotation) }
        ensures kind { node_of result ≡ node.Unknown value }
        ensures loc { expr_loc result ≡ None }
    {
        Expr::of_kind(ExprKind::Unknown(value))
    }

    /// `if test_expr then then_expr else else_expr`. Refuses only if out of memory.
    pub fn ite(
        alloc: Global,
        test_expr: Expr,
        then_expr: Expr,
        else_expr: Expr,
    ) -> Result<Expr, AllocError>
        ensures view { IfOk result (λ e. view e ≡ if_then_else (view test_expr) (view then_expr) (view else_expr)) }
        ensures kind { IfOk result (λ e. node_of e ≡ node.If test_expr then_expr else_expr) }
        ensures loc { IfOk result (λ e. expr_loc e ≡ None) }
    {
        let (test_expr, then_expr, else_expr) = shared_triple(
            alloc, test_expr, then_expr, else_expr,
        )?;
        Ok(Expr::of_kind(ExprKind::If {
            test_expr,
            then_expr,
            else_expr,
        }))
    }

    /// `left && right`. Refuses only if out of memory.
    pub fn and(alloc: Global, left: Expr, right: Expr) -> Result<Expr, AllocError>
        ensures view { IfOk result (λ e. view e ≡ both (view left) (view right)) }
        ensures kind { IfOk result (λ e. node_of e ≡ node.And left right) }
        ensures loc { IfOk result (λ e. expr_loc e ≡ None) }
    {
        let (left, right) = shared_pair(alloc, left, right)?;
        Ok(Expr::of_kind(ExprKind::And { left, right }))
    }

    /// `left || right`. Refuses only if out of memory.
    pub fn or(alloc: Global, left: Expr, right: Expr) -> Result<Expr, AllocError>
        ensures view { IfOk result (λ e. view e ≡ either (view left) (view right)) }
        ensures kind { IfOk result (λ e. node_of e ≡ node.Or left right) }
        ensures loc { IfOk result (λ e. expr_loc e ≡ None) }
    {
        let (left, right) = shared_pair(alloc, left, right)?;
        Ok(Expr::of_kind(ExprKind::Or { left, right }))
    }

    /// An operator on one part. Refuses only if out of memory.
    pub fn unary_app(alloc: Global, op: UnaryOp, arg: Expr) -> Result<Expr, AllocError>
        ensures view { IfOk result (λ e. view e ≡ unary (unary_view op) (view arg)) }
        ensures kind { IfOk result (λ e. node_of e ≡ node.UnaryApp op arg) }
        ensures loc { IfOk result (λ e. expr_loc e ≡ None) }
    {
        let arg = Rc::new(alloc, arg)?;
        Ok(Expr::of_kind(ExprKind::UnaryApp { op, arg }))
    }

    /// An operator on two parts. Refuses only if out of memory.
    pub fn binary_app(
        alloc: Global,
        op: BinaryOp,
        arg1: Expr,
        arg2: Expr,
    ) -> Result<Expr, AllocError>
        ensures view { IfOk result (λ e. view e ≡ binary (binary_view op) (view arg1) (view arg2)) }
        ensures kind { IfOk result (λ e. node_of e ≡ node.BinaryApp op arg1 arg2) }
        ensures loc { IfOk result (λ e. expr_loc e ≡ None) }
    {
        let (arg1, arg2) = shared_pair(alloc, arg1, arg2)?;
        Ok(Expr::of_kind(ExprKind::BinaryApp { op, arg1, arg2 }))
    }

    /// A call of the extension function of this name. Refuses only if out of memory.
    pub fn call_extension_fn(
        alloc: Global,
        fn_name: Name,
        args: Vec<Expr>,
    ) -> Result<Expr, AllocError>
        ensures view { IfOk result (λ e. view e ≡ call (name_text fn_name) (terms_view args.items)) }
        ensures kind { IfOk result (λ e. node_of e ≡ node.ExtensionFunctionApp fn_name args.items) }
        ensures loc { IfOk result (λ e. expr_loc e ≡ None) }
    {
        let args = Rc::new(alloc, args)?;
        Ok(Expr::of_kind(ExprKind::ExtensionFunctionApp { fn_name, args }))
    }

    /// `expr.attr`, of a record or an entity. Refuses only if out of memory.
    pub fn get_attr(alloc: Global, expr: Expr, attr: RcStr) -> Result<Expr, AllocError>
        ensures view { IfOk result (λ e. view e ≡ get_attribute (view expr) (rc_str_bytes attr)) }
        ensures kind { IfOk result (λ e. node_of e ≡ node.GetAttr expr attr) }
        ensures loc { IfOk result (λ e. expr_loc e ≡ None) }
    {
        let expr = Rc::new(alloc, expr)?;
        Ok(Expr::of_kind(ExprKind::GetAttr { expr, attr }))
    }

    /// `expr has attr`, of a record or an entity. Refuses only if out of memory.
    pub fn has_attr(alloc: Global, expr: Expr, attr: RcStr) -> Result<Expr, AllocError>
        ensures view { IfOk result (λ e. view e ≡ has_attribute (view expr) (rc_str_bytes attr)) }
        ensures kind { IfOk result (λ e. node_of e ≡ node.HasAttr expr attr) }
        ensures loc { IfOk result (λ e. expr_loc e ≡ None) }
    {
        let expr = Rc::new(alloc, expr)?;
        Ok(Expr::of_kind(ExprKind::HasAttr { expr, attr }))
    }

    /// `expr has first.second..`: that each attribute is there, one behind the other. Refuses only if out of memory.
    pub fn extended_has_attr(
        alloc: Global,
        expr: Expr,
        attrs: FirstRest<RcStr>,
    ) -> Result<Expr, AllocError>
        ensures view { IfOk result (λ e. view e ≡ extended_has_of (view expr) attrs) }
        ensures kind { IfOk result (λ e. node_of e ≡ node.ExtHasAttr expr attrs) }
        ensures loc { IfOk result (λ e. expr_loc e ≡ None) }
    {
        let expr = Rc::new(alloc, expr)?;
        let attrs = Rc::new(alloc, attrs)?;
        Ok(Expr::of_kind(ExprKind::ExtHasAttr { expr, attrs }))
    }

    /// `expr like pattern`, of a text. Refuses only if out of memory.
    pub fn like(alloc: Global, expr: Expr, pattern: Pattern) -> Result<Expr, AllocError>
        ensures view { IfOk result (λ e. view e ≡ like (view expr) (pattern_view pattern)) }
        ensures kind { IfOk result (λ e. node_of e ≡ node.Like expr pattern) }
        ensures loc { IfOk result (λ e. expr_loc e ≡ None) }
    {
        let expr = Rc::new(alloc, expr)?;
        Ok(Expr::of_kind(ExprKind::Like { expr, pattern }))
    }

    /// `expr is entity_type`, of an entity. Refuses only if out of memory.
    pub fn is_entity_type(
        alloc: Global,
        expr: Expr,
        entity_type: EntityType,
    ) -> Result<Expr, AllocError>
        ensures view { IfOk result (λ e. view e ≡ is_of_type (view expr) (type_text entity_type)) }
        ensures kind { IfOk result (λ e. node_of e ≡ node.Is expr entity_type) }
        ensures loc { IfOk result (λ e. expr_loc e ≡ None) }
    {
        let expr = Rc::new(alloc, expr)?;
        Ok(Expr::of_kind(ExprKind::Is { expr, entity_type }))
    }

    /// A set of these parts, in this order. Refuses only if out of memory.
    pub fn set(alloc: Global, parts: Vec<Expr>) -> Result<Expr, AllocError>
        ensures view { IfOk result (λ e. view e ≡ set_of (terms_view parts.items)) }
        ensures kind { IfOk result (λ e. node_of e ≡ node.Set parts.items) }
        ensures loc { IfOk result (λ e. expr_loc e ≡ None) }
    {
        let parts = Rc::new(alloc, parts)?;
        Ok(Expr::of_kind(ExprKind::Set(parts)))
    }

    fn of_kind(expr_kind: ExprKind) -> Expr
        ensures view { view result ≡ kind_view expr_kind }
        ensures kind { expr_kind_of result ≡ expr_kind }
        ensures loc { expr_loc result ≡ None }
    {
        Expr {
            expr_kind,
            source_loc: None,
        }
    }
}

// Both, to be parts of an expression.
fn shared_pair<T: Drop>(alloc: Global, first: T, second: T) -> Result<(Rc<T>, Rc<T>), AllocError>
    ensures first { IfOk result (λ p. p.0.value ≡ first) }
    ensures second { IfOk result (λ p. p.1.value ≡ second) }
{
    let first = Rc::new(alloc, first)?;
    let second = Rc::new(alloc, second)?;
    Ok((first, second))
}

// All three, to be parts of an expression.
fn shared_triple<T: Drop>(
    alloc: Global,
    first: T,
    second: T,
    third: T,
) -> Result<(Rc<T>, Rc<T>, Rc<T>), AllocError>
    ensures first { IfOk result (λ p. p.0.value ≡ first) }
    ensures second { IfOk result (λ p. p.1.value ≡ second) }
    ensures third { IfOk result (λ p. p.2.value ≡ third) }
{
    let (first, second) = shared_pair(alloc, first, second)?;
    let third = Rc::new(alloc, third)?;
    Ok((first, second, third))
}
