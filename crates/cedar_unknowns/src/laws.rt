//! What is listed. Each function is a law, and does nothing.
ghost use Rattle.std.specs.Prelude.{◌≡◌, List, Some};
ghost use Rattle.cedar_model.specs.Terms.{Term, EntityName};
ghost use Rattle.cedar_model.specs.Shapes.{has_unknown};
ghost use Rattle.cedar_unknowns.specs.Occurrences.{Asked, occurrences, stands, is_listed, each_once, AreDistinct};
ghost use Rattle.cedar_unknowns.specs.Entities.{asked_for, entity_asked};
ghost use Rattle.cedar_unknowns.specs.Naming.{NamesAllByLists, ListedNamesAreAll};
ghost use Rattle.cedar_unknowns.specs.NamingInstances.{WaitingIsListed, WaitingIsNamed};
ghost use Rattle.cedar_unknowns.specs.Finishing.{FinishesByLists, FinishesWithoutFunctions};
ghost use Rattle.cedar_authorizer.specs.Configured.{configuration};
ghost use Rattle.cedar_authorizer.specs.Steps.{Finishes, response_said, step_by};
ghost use Rattle.cedar_unknowns.specs.Themselves.{MissingIsItself};

use cedar_authorizer::authorizer::{Authorizer, PartialResponse};
use cedar_layers::policies::Entities;
use cedar_values::Value;
use std::collections::HashMap;
use std::rc::RcStr;

/// Unknowns that are listed once each: none comes twice, and they are those of the list. An expression has an unknown,
/// as the model has it, exactly where one is listed.
pub fn unknowns_are_listed_once()
    ensures distinct { (all : List Asked) → AreDistinct (each_once all) }
    ensures exactly { (all : List Asked) (a : Asked) → is_listed a (each_once all) ≡ is_listed a all }
    ensures stands { (t : Term) → has_unknown t ≡ stands (occurrences t) }
{}

/// The unknown by which a partial store answers for an entity stands for that entity, and an unknown that stands for an
/// entity is that one.
pub fn entities_have_their_unknowns()
    ensures stands { (e : EntityName) → entity_asked (asked_for e) ≡ Some e }
    ensures only { (a : Asked) (e : EntityName) → entity_asked a ≡ Some e → a ≡ asked_for e }
{}

/// What progress asks of a map is that it names all that is listed of a response, each unknown and the text of each
/// entity, and functions aside nothing else. Where no function answers an unknown, and the map's values hold no
/// extension value, to name what is listed is enough.
pub fn listed_names_are_all()
    ensures lists { NamesAllByLists }
    ensures all { ListedNamesAreAll }
{}

/// Where a step finishes as `reauthorize` promises, it leaves no residual over a concrete store of values by a map that
/// names all that is listed of the response before it, where no function answers an unknown; and so where there is no
/// function.
pub fn listed_steps_finish(
    before: &PartialResponse,
    map: &HashMap<RcStr, Value>,
    authorizer: &Authorizer<'_>,
    entities: &Entities,
    after: &PartialResponse,
)
    ensures lists { Finishes (configuration authorizer.now) (step_by map.now entities.now) (response_said before.now)
        after.now
        → FinishesByLists (configuration authorizer.now) (step_by map.now entities.now) (response_said before.now)
        after.now }
    ensures without_functions { Finishes (configuration authorizer.now) (step_by map.now entities.now)
        (response_said before.now) after.now
        → FinishesWithoutFunctions (configuration authorizer.now) (step_by map.now entities.now)
        (response_said before.now) after.now }
{}

/// Example: what is listed of a response that waits for the principal, for unknowns and for an entity, and a map that
/// names it.
pub fn waiting_responses_are_named()
    ensures listed { WaitingIsListed }
    ensures named { WaitingIsNamed }
{}

/// In each world that agrees with a store, the unknown of an entity that the store does not know is that entity. So a
/// world that agrees with the stores of a chain is one in which the entities that they did not know are themselves,
/// which is what `entity_values` asks.
pub fn missing_entity_is_itself()
    ensures { MissingIsItself }
{}
