//! Policies of a text.
ghost use Rattle.std.specs.Prelude.{◌≡◌, ◌+◌, ◌<◌, ◌≤◌, ◌++◌, ◌∷◌, ℕ, List, [], length, IfOk, IfErr, IfSome, IfNone};
ghost use Rattle.cedar_layers.specs.Policies.{policy_id_text};
ghost use Rattle.cedar_text_lexer.specs.declared.tokens.Kind.TheVariants as kind;
ghost use Rattle.cedar_text_lexer.specs.Sequence as Tokens;
ghost use Rattle.cedar_text_parser.specs.PolicyHeights.{with_scope, IsNoHigher, AreAllNoHigher};
ghost use Rattle.cedar_text_parser.specs.PolicyReading.{IsPolicyText, IsPolicyAt, AreAllRead, HasSlot, HasNoSlot};
ghost use Rattle.cedar_text_parser.specs.PolicyReading.{is_slot, id_of, IsSoFar, IsRead, AreTold, IsTextRefused};
ghost use Rattle.cedar_text_syntax.specs.Places.{IsPlaced};
ghost use Rattle.cedar_functions.specs.Functions.{Knowledge, knowledge};
ghost use Rattle.cedar_text_parser.specs.Reading.{IsPlaceWithin};

use crate::ParseError;
use crate::policy_reading::{Read, policy_at};
use crate::source::Source;
use cedar_functions::Functions;
use cedar_layers::policies::{Policy, PolicyID, PolicySet, PolicySetError};
use cedar_names::FirstRest;
use cedar_text_lexer::errors::{Expected, ReadError};
use cedar_text_lexer::lexer;
use cedar_text_lexer::sequence::kind_at;
use cedar_text_lexer::tokens::{Kind, Token};
use cedar_text_syntax::{expect, expected_at};
use std::alloc::{AllocError, Global};
use std::rc::RcStr;

/// The policies of a text: those that can be used as they are, and those with slots, which a link gives their values.
#[derive(Drop)]
pub struct ParsedPolicies {
    /// The policies without slots, in the order of the text.
    pub policies: PolicySet,
    /// The policies with slots, in the order of the text.
    pub templates: Vec<Policy>,
}

/// The policy of this id that the text writes. Its clauses have at most `limit` levels together; its condition, which
/// is its scope and them, has at most one level more than the larger of `limit` and 5, as an evaluator counts levels.
///
/// # Errors
///
/// Each has a place in the text; that reading fails there first is tested and not proved. Out of memory.
/// Something else was expected than what is there. The clauses have more levels. Of a clause more than sixteen nodes
/// would be built for each byte of it, as [`parse_expr`](crate::parse_expr) says. A call is not one of the known
/// functions: there is no function of its name, the function of its name is called in the other style, or it takes
/// another number of arguments.
pub fn parse_policy(
    alloc: Global,
    id: PolicyID,
    text: &str,
    limit: usize,
    functions: &Functions,
) -> Result<Policy, ParseError>
    ensures ok { IfOk result (IsPolicyText (knowledge functions.now) text.now limit (policy_id_text id)) }
    ensures low { IfOk result (IsNoHigher (with_scope limit)) }
    ensures placed { IfErr result (IsPlaceWithin text.now) }
    ensures calls { IfErr result (IsTextRefused (knowledge functions.now) text.now limit) }
{
    let tokens = lexer::tokens(alloc, text)?;
    let policy = policy_of(alloc, &Source::of(text, &tokens), id, limit, functions)?;
    Ok(policy)
}

// The policy that the text's tokens write.
fn policy_of(
    alloc: Global,
    source: &Source,
    id: PolicyID,
    limit: usize,
    functions: &Functions,
) -> Result<Policy, ParseError>
    ensures ok { IfOk result (IsPolicyText (knowledge functions.now) source.now.text limit (policy_id_text id)) }
    ensures placed { IfErr result (IsPlaceWithin source.now.text) }
    ensures calls { IfErr result (IsTextRefused (knowledge functions.now) source.now.text limit) }
{
    let tokens = source.tokens();
    let read = policy_at(alloc, source, 0, id, limit, functions)?;
    ends_at(tokens, read.next)?;
    Ok(read.policy)
}

// That the token of this number is the last, of kind `End`.
fn ends_at(tokens: &[Token], index: usize) -> Result<(), ReadError>
    ensures is { IfOk result (λ _. Tokens.kind_at tokens.now index ≡ kind.End) }
    ensures last { IfOk result (λ _. index + 1 ≡ length tokens.now) }
    ensures err { IfErr result (IsPlaced tokens.now) }
{
    let next = expect(tokens, index, Kind::End, Expected::End)?;
    if next == tokens.len() {
        Ok(())
    } else {
        Err(expected_at(tokens, index, Expected::End))
    }
}

/// The policies that the text writes, with the ids `policy0`, `policy1` and so on. The clauses and the condition of
/// each have as many levels as [`parse_policy`] says.
///
/// # Errors
///
/// All policies that can't be read, in the order of the text, for the reasons of [`parse_policy`]: reading goes on
/// behind the next `;`. Each error has a place in the text. Out of memory: that error is alone.
pub fn parse_policies(
    alloc: Global,
    text: &str,
    limit: usize,
    functions: &Functions,
) -> Result<ParsedPolicies, FirstRest<ParseError>>
    ensures ok { IfOk result (AreAllRead (knowledge functions.now) text.now limit) }
    ensures low { IfOk result (AreAllNoHigher (with_scope limit)) }
    ensures told { IfErr result
        (λ errors. AreTold (knowledge functions.now) text.now limit (errors.first ∷ errors.rest.items)) }
{
    match read_all(alloc, text, limit, functions) {
        Ok(reading) => {
            let parsed = reading.finish_reading(alloc)?;
            Ok(parsed)
        }
        Err(AllocError) => Err(alone(alloc, ParseError::Read(ReadError::Memory))),
    }
}

fn alone(alloc: Global, error: ParseError) -> FirstRest<ParseError>
    ensures first { result.first ≡ error }
    ensures rest { result.rest.items ≡ [] }
{
    FirstRest {
        first: error,
        rest: Vec::new(alloc),
    }
}

// What was read so far.
#[derive(Drop)]
struct Reading {
    policies: Vec<Policy>,
    templates: Vec<Policy>,
    errors: Vec<ParseError>,
}

// Reads all policies of the text.
fn read_all(
    alloc: Global,
    text: &str,
    limit: usize,
    functions: &Functions,
) -> Result<Reading, AllocError>
    ensures ok { IfOk result (IsRead (knowledge functions.now) text.now limit) }
    ensures told { IfOk result (λ r. AreTold (knowledge functions.now) text.now limit r.errors.items) }
{
    let tokens = lexer::tokens(alloc, text)?;
    let reading = read_tokens(alloc, &Source::of(text, &tokens), limit, functions)?;
    Ok(reading)
}

// Reads all policies of the text's tokens.
fn read_tokens(
    alloc: Global,
    source: &Source,
    limit: usize,
    functions: &Functions,
) -> Result<Reading, AllocError>
    ensures ok { IfOk result (IsRead (knowledge functions.now) source.now.text limit) }
    ensures told { IfOk result (λ r. AreTold (knowledge functions.now) source.now.text limit r.errors.items) }
{
    let count = source.len();
    let mut reading = Reading::new(alloc);
    let mut index = 0;
    let mut number = 0;
    while index + 1 < count {
        index = reading.take(alloc, source, index, number, limit, functions)?;
        number = number + 1;
    }
    let read = reading.end_reading(source, index)?;
    Ok(read)
}

impl Reading {
    fn new(alloc: Global) -> Reading
        ensures policies { result.policies.items ≡ [] }
        ensures templates { result.templates.items ≡ [] }
        ensures errors { result.errors.items ≡ [] }
    {
        Reading {
            policies: Vec::new(alloc),
            templates: Vec::new(alloc),
            errors: Vec::new(alloc),
        }
    }

    // Takes the policy of this number that begins with the token `index`; the number of the token behind it.
    fn take(
        &mut self,
        alloc: Global,
        source: &Source,
        index: usize,
        number: usize,
        limit: usize,
        functions: &Functions,
    ) -> Result<usize, AllocError>
        requires { index + 1 < length source.now.tokens }
        ensures moves { IfOk result (λ next. index < next) }
        ensures within { IfOk result (λ next. next ≤ length source.now.tokens) }
        ensures ok { IfOk result (λ next.
            IsSoFar (knowledge functions.now) source.now limit index number self.old →
            IsSoFar (knowledge functions.now) source.now limit next (number + 1) self.new) }
        ensures told { IfOk result (λ _. AreTold (knowledge functions.now) source.now.text limit self.old.errors.items →
            AreTold (knowledge functions.now) source.now.text limit self.new.errors.items) }
    {
        source.tokens_stand();
        let id = id_of_number(alloc, number)?;
        match policy_at(alloc, source, index, id, limit, functions) {
            Ok(read) => {
                let next = self.put(source, index, read)?;
                Ok(next)
            }
            Err(error) => {
                let next = self.refuse(source, index, error)?;
                Ok(next)
            }
        }
    }

    // Puts the policy behind the others, or behind the other templates.
    fn put(&mut self, source: &Source, index: usize, read: Read) -> Result<usize, AllocError>
        ensures next { IfOk result (λ next. next ≡ read.next) }
        ensures ok { (k : Knowledge) (limit number : ℕ) → IfOk result (λ next.
            IsPolicyAt k source.now limit (id_of number) index read.next read.policy →
            IsSoFar k source.now limit index number self.old →
            IsSoFar k source.now limit next (number + 1) self.new) }
        ensures errors { self.new.errors.items ≡ self.old.errors.items }
    {
        let Read { policy, next } = read;
        match slot_among(source.tokens(), index, next) {
            Some(_) => push(&mut self.templates, policy)?,
            None => push(&mut self.policies, policy)?,
        }
        Ok(next)
    }

    // Notes why the policy can't be read that begins with the token of this number, and goes on behind the next `;`.
    fn refuse(
        &mut self,
        source: &Source,
        index: usize,
        error: ParseError,
    ) -> Result<usize, AllocError>
        requires { index + 1 < length source.now.tokens }
        ensures moves { IfOk result (λ next. index < next) }
        ensures within { IfOk result (λ next. next ≤ length source.now.tokens) }
        ensures ok { (k : Knowledge) (limit i n : ℕ) →
            IfOk result (λ _. IsSoFar k source.now limit i n self.new) }
        ensures told { IfOk result (λ _. self.new.errors.items ≡ self.old.errors.items ++ error ∷ []) }
    {
        let start = match place_of(&error) {
            Some(start) => start,
            None => return Err(AllocError),
        };
        push(&mut self.errors, error)?;
        Ok(behind_semicolon(source.tokens(), index, start))
    }

    // That was all: the token of this number is the last.
    fn end_reading(self, source: &Source, index: usize) -> Result<Reading, AllocError>
        ensures ok { (k : Knowledge) (limit number : ℕ) →
            IfOk result (λ r. IsSoFar k source.now limit index number self → IsRead k source.now.text limit r) }
        ensures told { (k : Knowledge) (limit : ℕ) →
            IfOk result (λ r. AreTold k source.now.text limit self.errors.items →
            AreTold k source.now.text limit r.errors.items) }
    {
        match ends_at(source.tokens(), index) {
            Ok(()) => Ok(self),
            Err(error) => {
                let reading = self.refuse_policy(ParseError::Read(error))?;
                Ok(reading)
            }
        }
    }

    fn refuse_policy(self, error: ParseError) -> Result<Reading, AllocError>
        ensures ok { (k : Knowledge) (text : List ℕ) (limit : ℕ) → IfOk result (IsRead k text limit) }
        ensures told { IfOk result (λ r. r.errors.items ≡ self.errors.items ++ error ∷ []) }
    {
        let mut reading = self;
        push(&mut reading.errors, error)?;
        Ok(reading)
    }

    // The policies, if each could be read.
    fn finish_reading(self, alloc: Global) -> Result<ParsedPolicies, FirstRest<ParseError>>
        ensures ok { (k : Knowledge) (text : List ℕ) (limit : ℕ) →
            IfOk result (λ out. IsRead k text limit self → AreAllRead k text limit out) }
        ensures told { (k : Knowledge) (text : List ℕ) (limit : ℕ) → IfErr result
            (λ e. AreTold k text limit self.errors.items → AreTold k text limit (e.first ∷ e.rest.items)) }
    {
        let Reading {
            policies,
            templates,
            errors,
        } = self;
        if !errors.is_empty() {
            return Err(first_of(alloc, errors));
        }
        match PolicySet::try_from_iter(alloc, policies) {
            Ok(policies) => Ok(ParsedPolicies {
                policies,
                templates,
            }),
            Err(_) => Err(alone(alloc, ParseError::Read(ReadError::Memory))),
        }
    }
}

fn first_of(alloc: Global, errors: Vec<ParseError>) -> FirstRest<ParseError>
    ensures { (k : Knowledge) (text : List ℕ) (limit : ℕ) →
        AreTold k text limit errors.items → AreTold k text limit (result.first ∷ result.rest.items) }
{
    let mut errors = errors;
    if errors.is_empty() {
        return alone(alloc, ParseError::Read(ReadError::Memory));
    }
    let first = errors.remove(0);
    FirstRest {
        first,
        rest: errors,
    }
}

// The id of the policy of this number.
fn id_of_number(alloc: Global, number: usize) -> Result<PolicyID, AllocError>
    ensures { IfOk result (λ id. policy_id_text id ≡ id_of number) }
{
    let id = format!(in alloc; "policy{number}")?;
    Ok(PolicyID::from_string(RcStr::from_string(id)?))
}

fn push<T: Drop>(items: &mut Vec<T>, item: T) -> Result<(), AllocError>
    ensures { IfOk result (λ _. items.new.items ≡ items.old.items ++ item ∷ []) }
{
    match items.push(item) {
        Ok(()) => Ok(()),
        Err(_) => Err(AllocError),
    }
}

// A slot among the tokens from the one number up to, but not including, the other.
fn slot_among(tokens: &[Token], from: usize, to: usize) -> Option<usize>
    ensures some { IfSome result (λ k. HasSlot tokens.now from to) }
    ensures none { IfNone result (HasNoSlot tokens.now from to) }
{
    for index in from..to {
        if is_slot(kind_at(tokens, index)) {
            return Some(index);
        }
    }
    None
}

fn is_slot(kind: Kind) -> bool
    ensures { result ≡ is_slot kind }
{
    match kind {
        Kind::PrincipalSlot => true,
        Kind::ResourceSlot => true,
        _ => false,
    }
}

// The byte from which on this stands, unless out of memory.
fn place_of(error: &ParseError) -> Option<usize> {
    match error {
        ParseError::Read(ReadError::Memory) => None,
        ParseError::Read(ReadError::Expected { start, .. }) => Some(*start),
        ParseError::Read(ReadError::TooDeep { start, .. }) => Some(*start),
        ParseError::UnknownFunction { start, .. } => Some(*start),
        ParseError::WrongStyle { start, .. } => Some(*start),
        ParseError::WrongNumberOfArguments { start, .. } => Some(*start),
    }
}

// The number of the token behind the first `;` that does not end before this byte; of the last token, if there is none.
fn behind_semicolon(tokens: &[Token], from: usize, start: usize) -> usize
    requires { from + 1 < length tokens.now }
    ensures moves { from < result }
    ensures within { result ≤ length tokens.now }
{
    for index in from..tokens.len() {
        let token = tokens[index];
        if token.kind == Kind::Semicolon && token.start >= start {
            return index + 1;
        }
    }
    tokens.len() - 1
}
