#![tactic(auto, using(crate::proofs::TextLemmas::text_lemmas))]
//! JSON texts.
ghost use Rattle.std.specs.Prelude.{◌≡◌, [], Some, IfOk, IfErr};
ghost use Rattle.json.specs.Json.{document};
ghost use Rattle.json.specs.Strict.{HasUniqueKeys};
ghost use Rattle.json.specs.Value.{value_view};
ghost use Rattle.cedar_restricted.specs.Views.{restricted_term};
ghost use Rattle.cedar_json_reader.specs.Said.{said};
ghost use Rattle.cedar_json_reader.specs.SaidEntities.{entities_said};
ghost use Rattle.cedar_json_reader.specs.StatedEntities.{stated_views};
ghost use Rattle.cedar_json_reader.specs.JsonTexts.{IsUnread, Says, IsTextRefusal, SaysSo, IsTextError};
ghost use Rattle.cedar_json_reader.specs.SaidContexts.{context_said, IsContextOf, IsContextRefusal};
ghost use Rattle.cedar_json_reader.specs.SaidRequests.{IsRequestOf, IsRequestRefusal};
ghost use Rattle.cedar_json_reader.specs.Evaluated.{AreEntitiesOf};
ghost use Rattle.cedar_json_reader.specs.FailedEntities.{IsEntitiesError};
ghost use Rattle.cedar_model.specs.Agreement.{IsKnownContext};
ghost use Rattle.cedar_requests.specs.Contexts.{context_view};
ghost use Rattle.cedar_requests.specs.Requests.{request_view};
ghost use Rattle.cedar_json_reader.specs.NothingUnknown.{AreKnownEntities, IsKnownRequest, IsKnownContextRefusal};
ghost use Rattle.cedar_json_reader.specs.NothingUnknown.{IsKnownEntitiesError, IsKnownRequestRefusal};
ghost use Rattle.cedar_extensions.specs.Extensions.{extensions_view, calls_of};

use crate::contexts::context_from_json_value;
use crate::entities::{StatedEntity, stated_entities_from_json_value};
use crate::errors::JsonError;
use crate::evaluation::evaluated_entities;
use crate::requests::request_from_json_value;
use crate::unknowns::{refuse_unknown_context, refuse_unknown_entities, refuse_unknown_request};
use crate::values::restricted_expr_from_json_value;
use cedar_extensions::Extensions;
use cedar_layers::policies::Entity;
use cedar_requests::{Context, Request};
use cedar_restricted::RestrictedExpr;
use json::{Error, Scratch, Value};
use std::alloc::{AllocError, Global};

/// The restricted expression that the text says, as `restricted_expr_from_json_value` reads it. `Syntax` where the
/// text is no JSON or nests deeper than 128 levels, `DuplicateKey` where an object of it has a key twice, and
/// `Refused` as `restricted_expr_from_json_value` answers.
pub fn restricted_expr_from_json_str(alloc: Global, text: &str) -> Result<RestrictedExpr, JsonError>
    ensures said { IfOk result (λ r. Says text.now said (restricted_term r)) }
    ensures refused { IfErr result (IsTextRefusal text.now said) }
{
    let mut scratch = Scratch::new(alloc);
    match parse_json(alloc, text, &mut scratch) {
        Ok(value) => restricted_expr_from_json_value(alloc, &value),
        Err(error) => Err(error),
    }
}

/// The context that the text says: the members of an object, evaluated with these extensions at most `limit` levels
/// deep. Refuses as `restricted_expr_from_json_str` does; what is no object, with `NotAnObject`. `Evaluation` holds the
/// error of the evaluation, at the path `$`.
pub fn context_from_json_str(
    alloc: Global,
    text: &str,
    extensions: &Extensions<'_>,
    limit: usize,
) -> Result<Context, JsonError>
    ensures made { IfOk result
        (λ c. SaysSo text.now (λ j. IsContextOf (extensions_view extensions.now) (calls_of extensions.now) limit
        (context_said j) c)) }
    ensures refused { IfErr result
        (IsTextError text.now (λ j e. IsContextRefusal (extensions_view extensions.now) (calls_of extensions.now) limit
        (context_said j) [] e)) }
{
    let mut scratch = Scratch::new(alloc);
    match parse_json(alloc, text, &mut scratch) {
        Ok(value) => context_from_json_value(alloc, &value, extensions, limit),
        Err(error) => Err(error),
    }
}

/// The entities that the text says, in order, with their attributes and tags evaluated with these extensions at most
/// `limit` levels deep. The recorded ancestors of each are its parents alone, as the text has them. Refuses as
/// `stated_entities_from_json_str` does, before anything is evaluated. `Evaluation` holds the first error of an
/// attribute or a tag, in the order of the text but for tags, which come after the attributes of their entity; and
/// where that stands, as `$[3].attrs.age`.
pub fn entities_from_json_str(
    alloc: Global,
    text: &str,
    extensions: &Extensions<'_>,
    limit: usize,
) -> Result<Vec<Entity>, JsonError>
    ensures made { IfOk result
        (λ r. SaysSo text.now (λ j. AreEntitiesOf (extensions_view extensions.now) (calls_of extensions.now) limit
        (entities_said j) r.items)) }
    ensures refused { IfErr result
        (IsTextError text.now (λ j e. IsEntitiesError (extensions_view extensions.now) (calls_of extensions.now) limit
        (entities_said j) e)) }
{
    match stated_entities_from_json_str(alloc, text) {
        Ok(stated) => evaluated_entities(alloc, stated, extensions, limit),
        Err(error) => Err(error),
    }
}

/// The entities that the text says, of which nothing is evaluated: an array of objects, each with a `uid`, `attrs`,
/// `parents` and, where there are any, `tags`. A uid is a type and an id, with or without `__entity` around. `Syntax`
/// and `DuplicateKey` as for a value; else the first refusal, in the order of the text, and in an entity in the order
/// unexpected members, `uid`, `attrs`, `parents`, `tags`. A duplicate entity is refused at its `uid`.
pub fn stated_entities_from_json_str(
    alloc: Global,
    text: &str,
) -> Result<Vec<StatedEntity>, JsonError>
    ensures said { IfOk result (λ r. Says text.now entities_said (stated_views r.items)) }
    ensures refused { IfErr result (IsTextRefusal text.now entities_said) }
{
    let mut scratch = Scratch::new(alloc);
    match parse_json(alloc, text, &mut scratch) {
        Ok(value) => stated_entities_from_json_value(alloc, &value),
        Err(error) => Err(error),
    }
}

/// The request that the text says: an object of a `principal`, an `action` and a `resource`, each a type and an id,
/// with or without `__entity` around, or a text that is the entity in Cedar's text, as `"User::\"alice\""`, and of a
/// `context`, evaluated with these extensions at most `limit` levels deep. `Syntax` and `DuplicateKey` as for a value;
/// else the first refusal, in the order unexpected members, `principal`, `action`, `resource`, `context`; that of a
/// text is `NotAnEntityText`, with the place in the text. `Evaluation` holds the error of the evaluation of the
/// context, at the path `$.context`.
pub fn request_from_json_str(
    alloc: Global,
    text: &str,
    extensions: &Extensions<'_>,
    limit: usize,
) -> Result<Request, JsonError>
    ensures made { IfOk result
        (λ r. SaysSo text.now (λ j. IsRequestOf (extensions_view extensions.now) (calls_of extensions.now) limit j r)) }
    ensures refused { IfErr result
        (IsTextError text.now (λ j e. IsRequestRefusal (extensions_view extensions.now) (calls_of extensions.now) limit
        j e)) }
{
    let mut scratch = Scratch::new(alloc);
    match parse_json(alloc, text, &mut scratch) {
        Ok(value) => request_from_json_value(alloc, &value, extensions, limit),
        Err(error) => Err(error),
    }
}

/// The context that the text says, as `context_from_json_str` reads it, where nothing may be unknown: refuses one in
/// which an unknown stands with `Unknown`, at the first attribute in which one does.
pub fn known_context_from_json_str(
    alloc: Global,
    text: &str,
    extensions: &Extensions<'_>,
    limit: usize,
) -> Result<Context, JsonError>
    ensures made { IfOk result
        (λ c. SaysSo text.now (λ j. IsContextOf (extensions_view extensions.now) (calls_of extensions.now) limit
        (context_said j) c)) }
    ensures known { IfOk result (λ c. IsKnownContext (context_view c)) }
    ensures refused { IfErr result
        (IsTextError text.now (λ j e. IsKnownContextRefusal (extensions_view extensions.now) (calls_of extensions.now)
        limit (context_said j) [] e)) }
{
    match context_from_json_str(alloc, text, extensions, limit) {
        Ok(context) => match refuse_unknown_context(alloc, &context) {
            Ok(()) => Ok(context),
            Err(error) => {
                drop(context);
                Err(error)
            }
        },
        Err(error) => Err(error),
    }
}

/// The entities that the text says, as `entities_from_json_str` reads them, where nothing may be unknown: refuses those
/// in which an unknown stands with `Unknown`, at the first attribute or tag in which one does.
pub fn known_entities_from_json_str(
    alloc: Global,
    text: &str,
    extensions: &Extensions<'_>,
    limit: usize,
) -> Result<Vec<Entity>, JsonError>
    ensures made { IfOk result
        (λ r. SaysSo text.now (λ j. AreEntitiesOf (extensions_view extensions.now) (calls_of extensions.now) limit
        (entities_said j) r.items)) }
    ensures known { IfOk result (λ r. AreKnownEntities r.items) }
    ensures refused { IfErr result
        (IsTextError text.now (λ j e. IsKnownEntitiesError (extensions_view extensions.now) (calls_of extensions.now)
        limit (entities_said j) e)) }
{
    match entities_from_json_str(alloc, text, extensions, limit) {
        Ok(entities) => match refuse_unknown_entities(alloc, entities.as_slice()) {
            Ok(()) => Ok(entities),
            Err(error) => {
                drop(entities);
                Err(error)
            }
        },
        Err(error) => Err(error),
    }
}

/// The request that the text says, as `request_from_json_str` reads it, where nothing may be unknown: refuses one in
/// whose context an unknown stands with `Unknown`, at the first attribute in which one does.
pub fn known_request_from_json_str(
    alloc: Global,
    text: &str,
    extensions: &Extensions<'_>,
    limit: usize,
) -> Result<Request, JsonError>
    ensures made { IfOk result
        (λ r. SaysSo text.now (λ j. IsRequestOf (extensions_view extensions.now) (calls_of extensions.now) limit j r)) }
    ensures known { IfOk result (λ r. IsKnownRequest (request_view r)) }
    ensures refused { IfErr result
        (IsTextError text.now (λ j e. IsKnownRequestRefusal (extensions_view extensions.now) (calls_of extensions.now)
        limit j e)) }
{
    match request_from_json_str(alloc, text, extensions, limit) {
        Ok(request) => match refuse_unknown_request(alloc, &request) {
            Ok(()) => Ok(request),
            Err(error) => {
                drop(request);
                Err(error)
            }
        },
        Err(error) => Err(error),
    }
}

// The JSON value that the text is.
fn parse_json<'a>(
    alloc: Global,
    text: &'a str,
    scratch: &'a mut Scratch,
) -> Result<Value<'a>, JsonError>
    ensures said { IfOk result (λ v. document text.now ≡ Some (value_view v)) }
    ensures unique { IfOk result (λ v. HasUniqueKeys (value_view v)) }
    ensures unread { IfErr result (IsUnread text.now) }
{
    match Value::parse_strict(alloc, text, scratch) {
        Ok(value) => Ok(value),
        Err(Error::Invalid) => Err(JsonError::Syntax),
        Err(Error::TooLong) => Err(JsonError::Syntax),
        Err(Error::DuplicateKey) => Err(JsonError::DuplicateKey),
        Err(Error::OutOfMemory) => Err(JsonError::Memory(AllocError)),
    }
}
