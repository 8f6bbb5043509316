//! What is read from JSON and evaluated, where functions answer faithfully: `ans` says what the functions of a world
//! answer. Each function is a law, and does nothing.
ghost use Rattle.std.specs.Prelude.{◌≡◌, ℕ, true, List, Ok};
ghost use Rattle.std.specs.declared.alloc.Global.{Global};
ghost use Rattle.std.specs.declared.rc.RcStr.{RcStr};
ghost use Rattle.cedar_model.specs.Terms.{Text, Term};
ghost use Rattle.cedar_model.specs.Values.{Represented};
ghost use Rattle.cedar_model.specs.World as world;
ghost use Rattle.cedar_model.specs.Shapes.{is_restricted};
ghost use Rattle.cedar_model.specs.Failures.{PartialValue};
ghost use Rattle.cedar_model.specs.Agreement.{IsFaithful, IsFaithfulPart, IsFaithfulContext};
ghost use Rattle.cedar_layers.specs.declared.policies.entities.Entity.{Entity};
ghost use Rattle.cedar_extensions.specs.Extensions.{extensions_view, calls_of};
ghost use Rattle.cedar_extensions.specs.Computations.{AreFaithfulBy};
ghost use Rattle.cedar_restricted.specs.Views.{pairs_in};
ghost use Rattle.cedar_restricted.specs.declared.restricted_expr.RestrictedExpr.{RestrictedExpr};
ghost use Rattle.cedar_requests.specs.Contexts.{context_view};
ghost use Rattle.cedar_requests.specs.Requests.{request_view};
ghost use Rattle.cedar_requests.specs.Creations.{IsCreated, IsCreatedOfPairs};
ghost use Rattle.cedar_json_reader.specs.JsonTexts.{SaysSo};
ghost use Rattle.cedar_json_reader.specs.SaidContexts.{context_said, IsContextOf};
ghost use Rattle.cedar_json_reader.specs.SaidRequests.{IsRequestOf};
ghost use Rattle.cedar_json_reader.specs.SaidEntities.{entities_said};
ghost use Rattle.cedar_json_reader.specs.Evaluated.{IsAnswerOf, AreEntitiesOf};
ghost use Rattle.cedar_faithful.specs.Held.{EachIsFaithful, IsValueOf};

use cedar_extensions::Extensions;
use cedar_requests::{Context, Request};

/// What a restricted expression is evaluated to is faithful: the value that `RestrictedEvaluator::interpret` answers,
/// and the part that `partial_interpret` answers, where it is a value.
pub fn evaluated_values_are_faithful(extensions: &Extensions<'_>)
    ensures value { (ans : world.Functions) → AreFaithfulBy extensions.now ans → (limit : ℕ) (t : Term)
        (v : Represented) → is_restricted t ≡ true
        → IsValueOf (extensions_view extensions.now) (calls_of extensions.now) limit t v
        → IsFaithful (extensions_view extensions.now) ans v }
    ensures part { (ans : world.Functions) → AreFaithfulBy extensions.now ans → (limit : ℕ) (t : Term)
        (p : PartialValue) → is_restricted t ≡ true
        → IsAnswerOf (extensions_view extensions.now) (calls_of extensions.now) limit t p
        → IsFaithfulPart (extensions_view extensions.now) ans p }
{}

/// The values of the context that a restricted expression is evaluated to, as `Context::from_expr` promises, are
/// faithful, and so are those of one that is made of pairs, as `from_pairs` promises.
pub fn made_contexts_are_faithful(extensions: &Extensions<'_>, context: &Context)
    ensures expr { (ans : world.Functions) → AreFaithfulBy extensions.now ans → (limit : ℕ) (t : Term)
        → is_restricted t ≡ true
        → IsCreated (extensions_view extensions.now) (calls_of extensions.now) limit t (Ok context.now)
        → IsFaithfulContext (extensions_view extensions.now) ans (context_view context.now) }
    ensures pairs { (ans : world.Functions) → AreFaithfulBy extensions.now ans → (limit : ℕ)
        (ps : List (RcStr Global × RestrictedExpr))
        → IsCreatedOfPairs (extensions_view extensions.now) (calls_of extensions.now) limit (pairs_in ps)
        (Ok context.now)
        → IsFaithfulContext (extensions_view extensions.now) ans (context_view context.now) }
{}

/// The values of a context that `context_from_json_str` reads are faithful.
pub fn read_contexts_are_faithful(extensions: &Extensions<'_>, context: &Context)
    ensures { (ans : world.Functions) → AreFaithfulBy extensions.now ans → (text : Text) (limit : ℕ)
        → SaysSo text (λ j. IsContextOf (extensions_view extensions.now) (calls_of extensions.now) limit
        (context_said j) context.now)
        → IsFaithfulContext (extensions_view extensions.now) ans (context_view context.now) }
{}

/// The values of the context of a request that `request_from_json_str` reads are faithful.
pub fn read_requests_are_faithful(extensions: &Extensions<'_>, request: &Request)
    ensures { (ans : world.Functions) → AreFaithfulBy extensions.now ans → (text : Text) (limit : ℕ)
        → SaysSo text (λ j. IsRequestOf (extensions_view extensions.now) (calls_of extensions.now) limit j request.now)
        → IsFaithfulContext (extensions_view extensions.now) ans (request_view request.now).context_part }
{}

/// The values of the attributes and tags of the entities that `entities_from_json_str` reads are faithful.
pub fn read_entities_are_faithful(extensions: &Extensions<'_>)
    ensures { (ans : world.Functions) → AreFaithfulBy extensions.now ans → (text : Text) (limit : ℕ)
        (es : List Entity)
        → SaysSo text (λ j. AreEntitiesOf (extensions_view extensions.now) (calls_of extensions.now) limit
        (entities_said j) es)
        → EachIsFaithful (extensions_view extensions.now) ans es }
{}
