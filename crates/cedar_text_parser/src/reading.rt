//! Reads expressions.
ghost use Rattle.std.specs.Prelude.{IfOk, IfErr};
ghost use Rattle.cedar_text_syntax.specs.Trees.{trees};
ghost use Rattle.cedar_text_parser.specs.Heights.{IsNoHigher};
ghost use Rattle.cedar_text_parser.specs.Reading.{IsRead, IsNotParsed, IsWithin, IsPlaceWithin, IsOnly, AreFour};
ghost use Rattle.cedar_functions.specs.Functions.{knowledge};
ghost use Rattle.cedar_text_parser.specs.Refusals.{AreRefused};

use crate::builder::build_steps;
use crate::calls::known_calls;
use crate::errors::ParseError;
use crate::source::Source;
use cedar_expressions::Expr;
use cedar_functions::Functions;
use cedar_text_lexer::errors::ReadError;
use cedar_text_lexer::lexer;
use cedar_text_syntax::expression_steps;
use cedar_text_syntax::steps::Step;
use std::alloc::Global;

/// The expression that the text writes, of at most `limit` levels; brackets alone are no level. Each node has its place
/// in the text.
///
/// # Errors
///
/// Each has a place in the text. Out of memory. Something else was expected than what is there: a token can't be
/// where it is (that this is the first such token is tested and not proved), a number is larger than each long, an
/// escape is none of the language, a key is a duplicate in its record, or a method that is an operator has too many
/// arguments or too few. The expression has more levels. More than sixteen nodes would be built for each byte of the
/// text (`Expected::FewerNodes`): `a is T in b` has `a` twice. A call is not one of the known functions: there is no
/// function of its name, the function of its name is called in the other style, or it takes another number of
/// arguments.
pub fn parse_expr(
    alloc: Global,
    text: &str,
    limit: usize,
    functions: &Functions,
) -> Result<Expr, ParseError>
    ensures ok { IfOk result (IsRead (knowledge functions.now) text.now limit) }
    ensures low { IfOk result (IsNoHigher limit) }
    ensures err { IfErr result (IsNotParsed (knowledge functions.now) text.now) }
    ensures placed { IfErr result (IsPlaceWithin text.now) }
{
    let tokens = lexer::tokens(alloc, text)?;
    let made = expression_of(alloc, &Source::of(text, &tokens), limit, functions)?;
    Ok(made)
}

// The expression that the text's tokens write.
fn expression_of(
    alloc: Global,
    source: &Source,
    limit: usize,
    functions: &Functions,
) -> Result<Expr, ParseError>
    ensures ok { IfOk result (IsRead (knowledge functions.now) source.now.text limit) }
    ensures err { IfErr result (IsNotParsed (knowledge functions.now) source.now.text) }
    ensures placed { IfErr result (IsPlaceWithin source.now.text) }
{
    let steps = expression_steps(alloc, source.tokens(), limit)?;
    known_calls(alloc, source, &steps, functions)?;
    let made = expression(alloc, source, &steps)?;
    Ok(made)
}

/// The expression that the steps make, which name tokens of the text.
///
/// # Errors
///
/// Out of memory. What a step makes can't be: see [`parse_expr`]. The steps make no expression, or more than one:
/// `Expected::Steps`, at the end of the text.
pub fn expression(alloc: Global, source: &Source, steps: &[Step]) -> Result<Expr, ReadError>
    ensures ok { IfOk result (IsOnly source.now (trees steps.now)) }
    ensures err { IfErr result (AreRefused source.now steps.now) }
    ensures placed { IfErr result (IsWithin source.now.text) }
{
    source.tokens_stand();
    let builder = build_steps(alloc, source, steps)?;
    let made = builder.only(source)?;
    Ok(made)
}

/// The expressions of a policy: the three constraints of its scope, and its condition.
#[derive(Drop)]
pub struct Four {
    /// On the principal.
    pub principal: Expr,
    /// On the action.
    pub action: Expr,
    /// On the resource.
    pub resource: Expr,
    /// Of the conditions behind the scope.
    pub condition: Expr,
}

/// The four expressions that the steps make, in this order, which name tokens of the text.
///
/// # Errors
///
/// Out of memory. What a step makes can't be: see [`parse_expr`]. The steps make fewer or more:
/// `Expected::Steps`, at the end of the text.
pub fn four_expressions(alloc: Global, source: &Source, steps: &[Step]) -> Result<Four, ReadError>
    ensures ok { IfOk result (AreFour source.now (trees steps.now)) }
    ensures err { IfErr result (AreRefused source.now steps.now) }
    ensures placed { IfErr result (IsWithin source.now.text) }
{
    source.tokens_stand();
    let builder = build_steps(alloc, source, steps)?;
    let made = builder.four(source)?;
    Ok(made)
}
