#![tactic(auto, using(crate::proofs::Building::building))]
//! Operators, on expressions in the making.
ghost use Rattle.std.specs.Prelude.{◌≡◌, ◌++◌, ◌∷◌, [], map, IfOk, OnOk, option_map};
ghost use Rattle.std.specs.Rc.{rc_str_bytes};
ghost use Rattle.cedar_model.specs.Terms.{both, either, unary, binary, get_attribute, has_attribute, extended_has};
ghost use Rattle.cedar_model.specs.Terms.{is_of_type, if_then_else};
ghost use Rattle.cedar_model.specs.Terms.{not_operator, neg_operator, is_empty_operator};
ghost use Rattle.cedar_model.specs.Terms.{eq_operator, less_operator, less_eq_operator};
ghost use Rattle.cedar_model.specs.Terms.{add_operator, sub_operator, mul_operator, in_operator};
ghost use Rattle.cedar_model.specs.Terms.{contains_operator, contains_all_operator, contains_any_operator};
ghost use Rattle.cedar_model.specs.Terms.{get_tag_operator, has_tag_operator};
ghost use Rattle.cedar_names.specs.Leaves.{unary_view, binary_view, texts_view};
ghost use Rattle.cedar_expressions.specs.View.{view};
ghost use Rattle.cedar_builder.specs.Building.{term_of, term_in, of_two, of_three, is_of_type_in, Builds, Makes};

use super::ExprBuilder;
use cedar_expressions::Expr;
use cedar_fallible::pair_of;
use cedar_names::{BinaryOp, EntityType, FirstRest, Name, UnaryOp};
use std::alloc::{AllocError, Global};
use std::rc::RcStr;

impl ExprBuilder {
    /// `!self`, of a boolean.
    pub fn not(self) -> ExprBuilder
        ensures { Builds result (option_map (unary not_operator) (term_of self)) }
    {
        self.unary_app(UnaryOp::Not)
    }

    /// `-self`, of a long.
    pub fn neg(self) -> ExprBuilder
        ensures { Builds result (option_map (unary neg_operator) (term_of self)) }
    {
        self.unary_app(UnaryOp::Neg)
    }

    /// `self.isEmpty()`, of a set.
    pub fn is_empty(self) -> ExprBuilder
        ensures { Builds result (option_map (unary is_empty_operator) (term_of self)) }
    {
        self.unary_app(UnaryOp::IsEmpty)
    }

    /// `self && other`
    pub fn and(self, other: ExprBuilder) -> ExprBuilder
        ensures { Builds result (of_two both (term_of self) (term_of other)) }
    {
        let ExprBuilder { alloc, built } = self;
        ExprBuilder {
            alloc,
            built: both_of(alloc, built, other.built),
        }
    }

    /// `self || other`
    pub fn or(self, other: ExprBuilder) -> ExprBuilder
        ensures { Builds result (of_two either (term_of self) (term_of other)) }
    {
        let ExprBuilder { alloc, built } = self;
        ExprBuilder {
            alloc,
            built: either_of(alloc, built, other.built),
        }
    }

    /// `self == other`
    pub fn is_eq(self, other: ExprBuilder) -> ExprBuilder
        ensures { Builds result (of_two (binary eq_operator) (term_of self) (term_of other)) }
    {
        self.binary_app(BinaryOp::Eq, other)
    }

    /// `self != other`, which is `!(self == other)`.
    pub fn noteq(self, other: ExprBuilder) -> ExprBuilder
        ensures { Builds result
            (option_map (unary not_operator) (of_two (binary eq_operator) (term_of self) (term_of other))) }
    {
        self.is_eq(other).not()
    }

    /// `self < other`, of two longs or of two extension values of one overloaded type.
    pub fn less(self, other: ExprBuilder) -> ExprBuilder
        ensures { Builds result (of_two (binary less_operator) (term_of self) (term_of other)) }
    {
        self.binary_app(BinaryOp::Less, other)
    }

    /// `self <= other`, of the same.
    pub fn lesseq(self, other: ExprBuilder) -> ExprBuilder
        ensures { Builds result (of_two (binary less_eq_operator) (term_of self) (term_of other)) }
    {
        self.binary_app(BinaryOp::LessEq, other)
    }

    /// `self > other`, of the same, which is `!(self <= other)`.
    pub fn greater(self, other: ExprBuilder) -> ExprBuilder
        ensures { Builds result
            (option_map (unary not_operator) (of_two (binary less_eq_operator) (term_of self) (term_of other))) }
    {
        self.lesseq(other).not()
    }

    /// `self >= other`, of the same, which is `!(self < other)`.
    pub fn greatereq(self, other: ExprBuilder) -> ExprBuilder
        ensures { Builds result
            (option_map (unary not_operator) (of_two (binary less_operator) (term_of self) (term_of other))) }
    {
        self.less(other).not()
    }

    /// `self + other`, of two longs.
    pub fn add(self, other: ExprBuilder) -> ExprBuilder
        ensures { Builds result (of_two (binary add_operator) (term_of self) (term_of other)) }
    {
        self.binary_app(BinaryOp::Add, other)
    }

    /// `self - other`, of two longs.
    pub fn sub(self, other: ExprBuilder) -> ExprBuilder
        ensures { Builds result (of_two (binary sub_operator) (term_of self) (term_of other)) }
    {
        self.binary_app(BinaryOp::Sub, other)
    }

    /// `self * other`, of two longs.
    pub fn mul(self, other: ExprBuilder) -> ExprBuilder
        ensures { Builds result (of_two (binary mul_operator) (term_of self) (term_of other)) }
    {
        self.binary_app(BinaryOp::Mul, other)
    }

    /// `self in other`, of an entity and an entity or a set of entities.
    pub fn is_in(self, other: ExprBuilder) -> ExprBuilder
        ensures { Builds result (of_two (binary in_operator) (term_of self) (term_of other)) }
    {
        self.binary_app(BinaryOp::In, other)
    }

    /// `self.contains(other)`, of a set and any value.
    pub fn contains(self, other: ExprBuilder) -> ExprBuilder
        ensures { Builds result (of_two (binary contains_operator) (term_of self) (term_of other)) }
    {
        self.binary_app(BinaryOp::Contains, other)
    }

    /// `self.containsAll(other)`, of two sets.
    pub fn contains_all(self, other: ExprBuilder) -> ExprBuilder
        ensures { Builds result (of_two (binary contains_all_operator) (term_of self) (term_of other)) }
    {
        self.binary_app(BinaryOp::ContainsAll, other)
    }

    /// `self.containsAny(other)`, of two sets.
    pub fn contains_any(self, other: ExprBuilder) -> ExprBuilder
        ensures { Builds result (of_two (binary contains_any_operator) (term_of self) (term_of other)) }
    {
        self.binary_app(BinaryOp::ContainsAny, other)
    }

    /// `self.getTag(tag)`, of an entity and a text.
    pub fn get_tag(self, tag: ExprBuilder) -> ExprBuilder
        ensures { Builds result (of_two (binary get_tag_operator) (term_of self) (term_of tag)) }
    {
        self.binary_app(BinaryOp::GetTag, tag)
    }

    /// `self.hasTag(tag)`, of an entity and a text.
    pub fn has_tag(self, tag: ExprBuilder) -> ExprBuilder
        ensures { Builds result (of_two (binary has_tag_operator) (term_of self) (term_of tag)) }
    {
        self.binary_app(BinaryOp::HasTag, tag)
    }

    /// `self.attr`, of a record or an entity. The name is taken as it stands: one that is no identifier is
    /// `self["a b"]`.
    pub fn attr(self, attr: &str) -> ExprBuilder
        ensures { Builds result (option_map (λ t. get_attribute t attr.now) (term_of self)) }
    {
        let ExprBuilder { alloc, built } = self;
        ExprBuilder {
            alloc,
            built: attribute_of(alloc, built, attr),
        }
    }

    /// `self has attr`, of a record or an entity. The name is taken as it stands.
    pub fn has_attr(self, attr: &str) -> ExprBuilder
        ensures { Builds result (option_map (λ t. has_attribute t attr.now) (term_of self)) }
    {
        let ExprBuilder { alloc, built } = self;
        ExprBuilder {
            alloc,
            built: has_attribute_of(alloc, built, attr),
        }
    }

    /// `self has attr.next..`, of a record or an entity: that each attribute is there, one behind the other, `attr`
    /// first and then `more` in order. The names are taken as they stand. With none in `more` it is the extended `has`
    /// of one attribute, which no text is read as: `has_attr` is what `self has attr` says.
    pub fn extended_has_attr(self, attr: &str, more: &[&str]) -> ExprBuilder
        ensures { Builds result (option_map (λ t. extended_has t attr.now (map (λ a. a.now) more.now)) (term_of self)) }
    {
        let ExprBuilder { alloc, built } = self;
        ExprBuilder {
            alloc,
            built: extended_has_attribute_of(alloc, built, attr, more),
        }
    }

    /// `self is ty`, of an entity. The name of the type is taken as it stands.
    pub fn is_entity_type(self, ty: &str) -> ExprBuilder
        ensures { Builds result (option_map (λ t. is_of_type t ty.now) (term_of self)) }
    {
        let ExprBuilder { alloc, built } = self;
        ExprBuilder {
            alloc,
            built: of_type(alloc, built, ty),
        }
    }

    /// `self is ty in other`, which is `self is ty && self in other`. The name of the type is taken as it stands.
    pub fn is_in_entity_type(self, ty: &str, other: ExprBuilder) -> ExprBuilder
        ensures { Builds result (of_two (is_of_type_in ty.now) (term_of self) (term_of other)) }
    {
        let ExprBuilder { alloc, built } = self;
        ExprBuilder {
            alloc,
            built: of_type_in(alloc, built, ty, other.built),
        }
    }

    // An operator on this one.
    fn unary_app(self, op: UnaryOp) -> ExprBuilder
        ensures { Builds result (option_map (unary (unary_view op)) (term_of self)) }
    {
        let ExprBuilder { alloc, built } = self;
        ExprBuilder {
            alloc,
            built: unary_of(alloc, op, built),
        }
    }

    // An operator on this one and another.
    fn binary_app(self, op: BinaryOp, other: ExprBuilder) -> ExprBuilder
        ensures { Builds result (of_two (binary (binary_view op)) (term_of self) (term_of other)) }
    {
        let ExprBuilder { alloc, built } = self;
        ExprBuilder {
            alloc,
            built: binary_of(alloc, op, built, other.built),
        }
    }
}

/// `if test then then_expr else else_expr`
pub fn if_then_else(
    test: ExprBuilder,
    then_expr: ExprBuilder,
    else_expr: ExprBuilder,
) -> ExprBuilder
    ensures { Builds result (of_three if_then_else (term_of test) (term_of then_expr) (term_of else_expr)) }
{
    let ExprBuilder { alloc, built } = test;
    ExprBuilder {
        alloc,
        built: conditional_of(alloc, built, then_expr.built, else_expr.built),
    }
}

fn unary_of(alloc: Global, op: UnaryOp, part: Result<Expr, AllocError>) -> Result<Expr, AllocError>
    ensures { Makes result (option_map (unary (unary_view op)) (term_in part)) }
{
    let part = part?;
    let made = Expr::unary_app(alloc, op, part)?;
    Ok(made)
}

fn binary_of(
    alloc: Global,
    op: BinaryOp,
    left: Result<Expr, AllocError>,
    right: Result<Expr, AllocError>,
) -> Result<Expr, AllocError>
    ensures { Makes result (of_two (binary (binary_view op)) (term_in left) (term_in right)) }
{
    let (left, right) = pair_of(left, right)?;
    let made = Expr::binary_app(alloc, op, left, right)?;
    Ok(made)
}

fn both_of(
    alloc: Global,
    left: Result<Expr, AllocError>,
    right: Result<Expr, AllocError>,
) -> Result<Expr, AllocError>
    ensures { Makes result (of_two both (term_in left) (term_in right)) }
{
    let (left, right) = pair_of(left, right)?;
    let made = Expr::and(alloc, left, right)?;
    Ok(made)
}

fn either_of(
    alloc: Global,
    left: Result<Expr, AllocError>,
    right: Result<Expr, AllocError>,
) -> Result<Expr, AllocError>
    ensures { Makes result (of_two either (term_in left) (term_in right)) }
{
    let (left, right) = pair_of(left, right)?;
    let made = Expr::or(alloc, left, right)?;
    Ok(made)
}

fn conditional_of(
    alloc: Global,
    test_expr: Result<Expr, AllocError>,
    then_expr: Result<Expr, AllocError>,
    else_expr: Result<Expr, AllocError>,
) -> Result<Expr, AllocError>
    ensures { Makes result (of_three if_then_else (term_in test_expr) (term_in then_expr) (term_in else_expr)) }
{
    let (test_expr, branches) = pair_of(test_expr, pair_of(then_expr, else_expr))?;
    let (then_expr, else_expr) = branches;
    let made = Expr::ite(alloc, test_expr, then_expr, else_expr)?;
    Ok(made)
}

fn attribute_of(
    alloc: Global,
    part: Result<Expr, AllocError>,
    attr: &str,
) -> Result<Expr, AllocError>
    ensures { Makes result (option_map (λ t. get_attribute t attr.now) (term_in part)) }
{
    let (part, attr) = pair_of(part, RcStr::from_str(alloc, attr))?;
    let made = Expr::get_attr(alloc, part, attr)?;
    Ok(made)
}

fn has_attribute_of(
    alloc: Global,
    part: Result<Expr, AllocError>,
    attr: &str,
) -> Result<Expr, AllocError>
    ensures { Makes result (option_map (λ t. has_attribute t attr.now) (term_in part)) }
{
    let (part, attr) = pair_of(part, RcStr::from_str(alloc, attr))?;
    let made = Expr::has_attr(alloc, part, attr)?;
    Ok(made)
}

fn extended_has_attribute_of(
    alloc: Global,
    part: Result<Expr, AllocError>,
    attr: &str,
    more: &[&str],
) -> Result<Expr, AllocError>
    ensures { Makes result (option_map (λ t. extended_has t attr.now (map (λ a. a.now) more.now)) (term_in part)) }
{
    let (part, attrs) = pair_of(part, path_of(alloc, attr, more))?;
    let made = Expr::extended_has_attr(alloc, part, attrs)?;
    Ok(made)
}

// These attributes, one behind the other.
fn path_of(alloc: Global, attr: &str, more: &[&str]) -> Result<FirstRest<RcStr>, AllocError>
    ensures first { IfOk result (λ p. rc_str_bytes p.first ≡ attr.now) }
    ensures rest { IfOk result (λ p. texts_view p.rest.items ≡ map (λ a. a.now) more.now) }
{
    let (first, rest) = pair_of(RcStr::from_str(alloc, attr), texts_of(alloc, more))?;
    Ok(FirstRest { first, rest })
}

fn texts_of(alloc: Global, texts: &[&str]) -> Result<Vec<RcStr>, AllocError>
    ensures { IfOk result (λ v. texts_view v.items ≡ map (λ t. t.now) texts.now) }
{
    let mut made: Vec<RcStr> = Vec::new(alloc);
    'texts: for i in 0..texts.len() {
        put_text(alloc, &mut made, texts[i])?;
    }
    Ok(made)
}

fn put_text(alloc: Global, made: &mut Vec<RcStr>, text: &str) -> Result<(), AllocError>
    ensures { OnOk result (texts_view made.new.items ≡ texts_view made.old.items ++ text.now ∷ []) }
{
    let text = RcStr::from_str(alloc, text)?;
    match made.push(text) {
        Ok(()) => Ok(()),
        Err(_) => Err(AllocError),
    }
}

fn of_type(alloc: Global, part: Result<Expr, AllocError>, ty: &str) -> Result<Expr, AllocError>
    ensures { Makes result (option_map (λ t. is_of_type t ty.now) (term_in part)) }
{
    let (part, name) = pair_of(part, RcStr::from_str(alloc, ty))?;
    let made = Expr::is_entity_type(alloc, part, EntityType::new(Name::new(name, None)))?;
    Ok(made)
}

fn of_type_in(
    alloc: Global,
    part: Result<Expr, AllocError>,
    ty: &str,
    other: Result<Expr, AllocError>,
) -> Result<Expr, AllocError>
    ensures { Makes result (of_two (is_of_type_in ty.now) (term_in part) (term_in other)) }
{
    let (part, copy) = twice(part)?;
    let is = of_type(alloc, Ok(part), ty);
    let is_in = binary_of(alloc, BinaryOp::In, Ok(copy), other);
    both_of(alloc, is, is_in)
}

// The same expression twice.
fn twice(part: Result<Expr, AllocError>) -> Result<(Expr, Expr), AllocError>
    ensures first { IfOk result (λ p. term_in part ≡ Some (view p.0)) }
    ensures second { IfOk result (λ p. term_in part ≡ Some (view p.1)) }
{
    let part = part?;
    let copy: Result<Expr, AllocError> = part.clone();
    pair_of(Ok(part), copy)
}
