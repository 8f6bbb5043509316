//! What is read from JSON and evaluated, where functions answer no extension value. Each function is a law, and does
//! nothing.
ghost use Rattle.std.specs.Prelude.{◌≡◌, ℕ, true, List, Ok};
ghost use Rattle.std.specs.declared.alloc.Global.{Global};
ghost use Rattle.std.specs.declared.rc.RcStr.{RcStr};
ghost use Rattle.cedar_model.specs.Terms.{Text, Term};
ghost use Rattle.cedar_model.specs.Shapes.{is_restricted};
ghost use Rattle.cedar_laws.specs.Faithful.{ContextHoldsNoExtensionValue, AnswerNoExtensionValue};
ghost use Rattle.cedar_layers.specs.declared.policies.entities.Entity.{Entity};
ghost use Rattle.cedar_extensions.specs.Extensions.{extensions_view, calls_of};
ghost use Rattle.cedar_restricted.specs.Views.{pairs_in};
ghost use Rattle.cedar_restricted.specs.declared.restricted_expr.RestrictedExpr.{RestrictedExpr};
ghost use Rattle.cedar_requests.specs.Contexts.{context_view};
ghost use Rattle.cedar_requests.specs.Requests.{request_view};
ghost use Rattle.cedar_requests.specs.Creations.{IsCreated, IsCreatedOfPairs};
ghost use Rattle.cedar_json_reader.specs.JsonTexts.{SaysSo};
ghost use Rattle.cedar_json_reader.specs.SaidContexts.{context_said, IsContextOf};
ghost use Rattle.cedar_json_reader.specs.SaidRequests.{IsRequestOf};
ghost use Rattle.cedar_json_reader.specs.SaidEntities.{entities_said};
ghost use Rattle.cedar_json_reader.specs.Evaluated.{AreEntitiesOf};
ghost use Rattle.cedar_faithful.specs.Held.{EachHoldsNoExtensionValue};

use cedar_extensions::Extensions;
use cedar_requests::{Context, Request};

/// The context that a restricted expression is evaluated to, as `Context::from_expr` promises, holds no extension
/// value, nor does one that is made of pairs, as `from_pairs` promises.
pub fn made_contexts_hold_none(extensions: &Extensions<'_>, context: &Context)
    ensures expr { AnswerNoExtensionValue (calls_of extensions.now) → (limit : ℕ) (t : Term) → is_restricted t ≡ true
        → IsCreated (extensions_view extensions.now) (calls_of extensions.now) limit t (Ok context.now)
        → ContextHoldsNoExtensionValue (context_view context.now) }
    ensures pairs { AnswerNoExtensionValue (calls_of extensions.now) → (limit : ℕ)
        (ps : List (RcStr Global × RestrictedExpr))
        → IsCreatedOfPairs (extensions_view extensions.now) (calls_of extensions.now) limit (pairs_in ps)
        (Ok context.now)
        → ContextHoldsNoExtensionValue (context_view context.now) }
{}

/// Nor does a context that `context_from_json_str` reads.
pub fn read_contexts_hold_none(extensions: &Extensions<'_>, context: &Context)
    ensures { AnswerNoExtensionValue (calls_of extensions.now) → (text : Text) (limit : ℕ)
        → SaysSo text (λ j. IsContextOf (extensions_view extensions.now) (calls_of extensions.now) limit
        (context_said j) context.now)
        → ContextHoldsNoExtensionValue (context_view context.now) }
{}

/// Nor that of a request that `request_from_json_str` reads.
pub fn read_requests_hold_none(extensions: &Extensions<'_>, request: &Request)
    ensures { AnswerNoExtensionValue (calls_of extensions.now) → (text : Text) (limit : ℕ)
        → SaysSo text (λ j. IsRequestOf (extensions_view extensions.now) (calls_of extensions.now) limit j request.now)
        → ContextHoldsNoExtensionValue (request_view request.now).context_part }
{}

/// Nor do the entities that `entities_from_json_str` reads.
pub fn read_entities_hold_none(extensions: &Extensions<'_>)
    ensures { AnswerNoExtensionValue (calls_of extensions.now) → (text : Text) (limit : ℕ) (es : List Entity)
        → SaysSo text (λ j. AreEntitiesOf (extensions_view extensions.now) (calls_of extensions.now) limit
        (entities_said j) es)
        → EachHoldsNoExtensionValue es }
{}
