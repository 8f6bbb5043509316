#![tactic(auto, using(crate::proofs::Capping::capping), unfolding(cedar_model::specs::Failures::part_expression))]
//! How high what entities hold is.
ghost use Rattle.std.specs.Prelude.{◌≡◌, option_copied};
ghost use Rattle.cedar_model.specs.Agreement.{height};
ghost use Rattle.cedar_model.specs.Failures.{part_expression};
ghost use Rattle.cedar_model.specs.Settings.{names_of};
ghost use Rattle.cedar_layers.specs.Parts.{found_part};
ghost use Rattle.cedar_layers.specs.Stores.{entity_view};
ghost use Rattle.cedar_values.specs.Residuals.{partial_view};
ghost use Rattle.cedar_heights.specs.Capped.{capped};
ghost use Rattle.cedar_heights.specs.Heights.{found_height, greatest_under, facts_height, greatest_facts};

use crate::expressions::expr_height;
use crate::values::value_height;
use cedar_layers::policies::Entity;
use cedar_values::PartialValue;

/// How many levels the highest attribute or tag of these entities has; 0 where they have none.
pub fn entities_height(entities: &[Entity]) -> usize
    ensures { result ≡ capped (greatest_facts entities.now) }
{
    let mut found = 0;
    'entities: for entity in entities {
        found = entity_height(entity).max(found);
    }
    found
}

/// How many levels the entity's highest attribute or tag has; 0 where it has none.
pub fn entity_height(entity: &Entity) -> usize
    ensures { result ≡ capped (facts_height (entity_view entity.now)) }
{
    attributes_height(entity).max(tags_height(entity))
}

fn attributes_height(entity: &Entity) -> usize
    ensures { result ≡ capped (greatest_under (names_of (entity_view entity.now).attributes)
        (entity_view entity.now).attributes) }
{
    let mut found = 0;
    'names: for name in entity.keys() {
        found = found_height(entity.get(name.as_str())).max(found);
    }
    found
}

fn tags_height(entity: &Entity) -> usize
    ensures { result ≡ capped (greatest_under (names_of (entity_view entity.now).tags)
        (entity_view entity.now).tags) }
{
    let mut found = 0;
    'names: for name in entity.tag_keys() {
        found = found_height(entity.get_tag(name.as_str())).max(found);
    }
    found
}

fn found_height(part: Option<&PartialValue>) -> usize
    ensures { result ≡ capped (found_height (found_part (option_copied part.entry))) }
{
    match part {
        None => 0,
        Some(part) => part_height(part),
    }
}

fn part_height(part: &PartialValue) -> usize
    ensures { result ≡ capped (height (part_expression (partial_view part.now))) }
{
    match part {
        PartialValue::Value(value) => value_height(value),
        PartialValue::Residual(residual) => expr_height(residual.as_expr()),
    }
}
