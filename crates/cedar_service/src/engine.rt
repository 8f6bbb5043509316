//! Engines.
ghost use Rattle.std.specs.Prelude.{◌≡◌, ◌∷◌, IfOk, IfErr};
ghost use Rattle.cedar_extensions.specs.Extensions.{extensions_view, calls_of};
ghost use Rattle.cedar_functions.specs.Functions.{knowledge, these, signatures_of};
ghost use Rattle.cedar_text_parser.specs.PolicyHeights.{with_scope, AreAllNoHigher};
ghost use Rattle.cedar_text_parser.specs.PolicyReading.{AreAllRead};

use crate::contexts::LEVELS;
use crate::versions::version_of;
use cedar_extensions::Extensions;
use cedar_functions::Functions;
use cedar_hierarchy::{ClosureError, close_hierarchy};
use cedar_json_reader::{JsonError, known_entities_from_json_str};
use cedar_layers::policies::{Entities, Entity, PolicySet};
use cedar_names::{EntityUID, FirstRest};
use cedar_overlay::Base;
use cedar_scope_actions::candidates;
use cedar_standard_functions::laws::functions_are_computed;
use cedar_text_lexer::errors::ReadError;
use cedar_text_parser::policy_laws::known_calls_of_policies;
use cedar_text_parser::{ParseError, ParsedPolicies, parse_policies};
use std::alloc::{AllocError, Global};

/// Policies and entities that were read once. It decides with the standard extensions.
#[derive(Drop)]
pub struct Engine {
    pub(crate) policies: ParsedPolicies,
    pub(crate) base: Base,
    pub(crate) candidates: Vec<EntityUID>,
    pub(crate) version: String,
}

/// Why no engine was made of two texts.
#[derive(Debug, Drop)]
pub enum NotStarted {
    /// The policies can't be read: these are the errors, each with its place in the text.
    Policies(FirstRest<ParseError>),
    /// The entities can't be read, or an attribute or a tag does not evaluate, or an unknown stands in one.
    Entities(JsonError),
    /// The parents of an entity lead back to it.
    Parents(ClosureError),
    /// Out of memory.
    Memory,
}

impl Engine {
    ghost use Rattle.cedar_service.specs.Engines.{policies_of, entities_of};
    ghost use Rattle.cedar_service.specs.Started.{IsEngineOf, IsNotStarted};

    /// The engine of the policies that the first text writes, in Cedar's text, over the entities that the second one
    /// says, in Cedar's JSON, each with all entities that its parents lead to. Refuses the policies before it reads
    /// the entities.
    pub fn of_texts(alloc: Global, policies: &str, entities: &str) -> Result<Engine, NotStarted>
        ensures engine { IfOk result (IsEngineOf policies.now entities.now) }
        ensures refused { IfErr result (IsNotStarted policies.now entities.now) }
    {
        functions_are_computed();
        known_calls_of_policies();
        let extensions = Extensions::all_available();
        engine_of_texts(alloc, policies, entities, &extensions)
    }

    /// The policies that decide.
    pub fn policies(&self) -> &PolicySet
        ensures { result.now ≡ policies_of self.now }
    {
        &self.policies.policies
    }

    /// The entities, each with all its ancestors.
    pub fn entities(&self) -> &Entities
        ensures { result.now ≡ entities_of self.now }
    {
        self.base.entities()
    }
}

ghost use Rattle.cedar_service.specs.Asked.{levels};
ghost use Rattle.cedar_service.specs.Candidates.{AreCandidates};
ghost use Rattle.cedar_service.specs.Engines.{candidates_of, entities_of, version_of};
ghost use Rattle.cedar_service.specs.Versions.{version_text};
ghost use Rattle.cedar_service.specs.Started.{IsEngineWith, IsFailure, IsStoreSaid, IsClosedStore};
ghost use Rattle.cedar_service.specs.Started.{IsStoreFailure, IsPoliciesFailure, IsCyclicAmong, IsUnreadAs, IsUnclosedAs};
ghost use Rattle.cedar_service.specs.Started.{is_memory, is_read_memory};

fn engine_of_texts(
    alloc: Global,
    policies: &str,
    entities: &str,
    extensions: &Extensions<'_>,
) -> Result<Engine, NotStarted>
    ensures engine { IfOk result (IsEngineWith (these (signatures_of extensions.now)) (extensions_view extensions.now)
        (calls_of extensions.now) policies.now entities.now) }
    ensures refused { IfErr result (IsFailure (these (signatures_of extensions.now)) (extensions_view extensions.now)
        (calls_of extensions.now) policies.now entities.now) }
{
    match read_policies(alloc, policies, extensions) {
        Ok(parsed) => with_store(alloc, policies, parsed, entities, extensions),
        Err(failure) => Err(failure),
    }
}

fn with_store(
    alloc: Global,
    policies: &str,
    parsed: ParsedPolicies,
    entities: &str,
    extensions: &Extensions<'_>,
) -> Result<Engine, NotStarted>
    ensures policies { IfOk result (λ e. e.policies ≡ parsed) }
    ensures entities { IfOk result (λ e.
        IsStoreSaid (extensions_view extensions.now) (calls_of extensions.now) entities.now (entities_of e)) }
    ensures candidates { IfOk result (λ e. AreCandidates e.policies.policies (entities_of e) (candidates_of e)) }
    ensures version { IfOk result (λ e. version_of e ≡ version_text policies.now entities.now) }
    ensures refused { IfErr result
        (IsStoreFailure (extensions_view extensions.now) (calls_of extensions.now) entities.now) }
{
    match read_store(alloc, entities, extensions) {
        Ok(store) => with_candidates(alloc, policies, parsed, entities, store),
        Err(failure) => {
            drop(parsed);
            Err(failure)
        }
    }
}

// The engine, if there is memory for its candidates and its version.
fn with_candidates(
    alloc: Global,
    policies: &str,
    parsed: ParsedPolicies,
    entities: &str,
    store: Entities,
) -> Result<Engine, NotStarted>
    ensures policies { IfOk result (λ e. e.policies ≡ parsed) }
    ensures entities { IfOk result (λ e. entities_of e ≡ store) }
    ensures candidates { IfOk result (λ e. AreCandidates e.policies.policies (entities_of e) (candidates_of e)) }
    ensures version { IfOk result (λ e. version_of e ≡ version_text policies.now entities.now) }
    ensures memory { IfErr result (λ f. f ≡ NotStarted.Memory) }
{
    match candidates(alloc, &parsed.policies, &store) {
        Ok(sought) => with_version(alloc, policies, parsed, entities, store, sought),
        Err(AllocError) => {
            drop(parsed);
            drop(store);
            Err(NotStarted::Memory)
        }
    }
}

fn with_version(
    alloc: Global,
    policies: &str,
    parsed: ParsedPolicies,
    entities: &str,
    store: Entities,
    candidates: Vec<EntityUID>,
) -> Result<Engine, NotStarted>
    ensures policies { IfOk result (λ e. e.policies ≡ parsed) }
    ensures entities { IfOk result (λ e. entities_of e ≡ store) }
    ensures candidates { IfOk result (λ e. e.candidates ≡ candidates) }
    ensures version { IfOk result (λ e. version_of e ≡ version_text policies.now entities.now) }
    ensures memory { IfErr result (λ f. f ≡ NotStarted.Memory) }
{
    match version_of(alloc, policies, entities) {
        Ok(version) => with_base(alloc, parsed, store, candidates, version),
        Err(AllocError) => {
            drop(parsed);
            drop(store);
            drop(candidates);
            Err(NotStarted::Memory)
        }
    }
}

fn with_base(
    alloc: Global,
    parsed: ParsedPolicies,
    store: Entities,
    candidates: Vec<EntityUID>,
    version: String,
) -> Result<Engine, NotStarted>
    ensures policies { IfOk result (λ e. e.policies ≡ parsed) }
    ensures entities { IfOk result (λ e. entities_of e ≡ store) }
    ensures candidates { IfOk result (λ e. e.candidates ≡ candidates) }
    ensures version { IfOk result (λ e. e.version ≡ version) }
    ensures memory { IfErr result (λ f. f ≡ NotStarted.Memory) }
{
    match Base::of(alloc, store) {
        Ok(base) => Ok(Engine {
            policies: parsed,
            base,
            candidates,
            version,
        }),
        Err(AllocError) => {
            drop(parsed);
            drop(candidates);
            drop(version);
            Err(NotStarted::Memory)
        }
    }
}

// ---- policies

fn read_policies(
    alloc: Global,
    text: &str,
    extensions: &Extensions<'_>,
) -> Result<ParsedPolicies, NotStarted>
    ensures read { IfOk result (AreAllRead (these (signatures_of extensions.now)) text.now levels) }
    ensures low { IfOk result (AreAllNoHigher (with_scope levels)) }
    ensures refused { IfErr result (IsPoliciesFailure (these (signatures_of extensions.now)) text.now) }
{
    match Functions::of(alloc, extensions) {
        Ok(functions) => {
            let parsed = parse(alloc, text, &functions);
            drop(functions);
            parsed
        }
        Err(AllocError) => Err(NotStarted::Memory),
    }
}

fn parse(alloc: Global, text: &str, functions: &Functions) -> Result<ParsedPolicies, NotStarted>
    ensures read { IfOk result (AreAllRead (knowledge functions.now) text.now levels) }
    ensures low { IfOk result (AreAllNoHigher (with_scope levels)) }
    ensures refused { IfErr result (IsPoliciesFailure (knowledge functions.now) text.now) }
{
    match parse_policies(alloc, text, LEVELS, functions) {
        Ok(parsed) => Ok(parsed),
        Err(errors) => if is_memory(&errors.first) {
            drop(errors);
            Err(NotStarted::Memory)
        } else {
            Err(NotStarted::Policies(errors))
        },
    }
}

fn is_memory(error: &ParseError) -> bool
    ensures { result ≡ is_memory error.now }
{
    match error {
        ParseError::Read(error) => is_read_memory(*error),
        ParseError::UnknownFunction { .. } => false,
        ParseError::WrongStyle { .. } => false,
        ParseError::WrongNumberOfArguments { .. } => false,
    }
}

fn is_read_memory(error: ReadError) -> bool
    ensures { result ≡ is_read_memory error }
{
    match error {
        ReadError::Memory => true,
        ReadError::Expected { .. } => false,
        ReadError::TooDeep { .. } => false,
    }
}

// ---- entities

fn read_store(
    alloc: Global,
    text: &str,
    extensions: &Extensions<'_>,
) -> Result<Entities, NotStarted>
    ensures said { IfOk result
        (IsStoreSaid (extensions_view extensions.now) (calls_of extensions.now) text.now) }
    ensures refused { IfErr result
        (IsStoreFailure (extensions_view extensions.now) (calls_of extensions.now) text.now) }
{
    match known_entities_from_json_str(alloc, text, extensions, LEVELS) {
        Ok(entities) => close(alloc, entities),
        Err(error) => Err(unread(error)),
    }
}

fn unread(error: JsonError) -> NotStarted
    ensures { IsUnreadAs error result }
{
    match error {
        JsonError::Memory(_) => NotStarted::Memory,
        JsonError::Syntax => NotStarted::Entities(JsonError::Syntax),
        JsonError::DuplicateKey => NotStarted::Entities(JsonError::DuplicateKey),
        JsonError::Refused { path, reason } => {
            NotStarted::Entities(JsonError::Refused { path, reason })
        }
        JsonError::Evaluation { path, error } => {
            NotStarted::Entities(JsonError::Evaluation { path, error })
        }
    }
}

fn close(alloc: Global, entities: Vec<Entity>) -> Result<Entities, NotStarted>
    ensures closed { IfOk result (IsClosedStore entities.items) }
    ensures cycle { IfErr result (IsCyclicAmong entities.items) }
{
    match close_hierarchy(alloc, entities) {
        Ok(store) => Ok(store),
        Err(error) => Err(unclosed(error)),
    }
}

fn unclosed(error: ClosureError) -> NotStarted
    ensures { IsUnclosedAs error result }
{
    match error {
        ClosureError::Memory(_) => NotStarted::Memory,
        ClosureError::Cycle(uid) => NotStarted::Parents(ClosureError::Cycle(uid)),
    }
}
