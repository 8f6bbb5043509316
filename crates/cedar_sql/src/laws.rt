//! Rows that stand for an entity. Each function is a law, and does nothing.
ghost use Rattle.cedar_sql.specs.Filled.{EntitiesHaveRows, LongsAreHeld, TextsAreHeld, AbsentIsNull};

/// An entity has a row, if each column can hold what the entity tells of its attribute, and no two columns are at one
/// place: what `sql_of` says of each row that is an entity's is not said of none.
pub fn entities_have_rows()
    ensures { EntitiesHaveRows }
{}

/// What columns hold of an attribute of the entity: of a long its INTEGER, of a string its TEXT, and NULL if the entity
/// lacks the attribute.
pub fn columns_hold_attributes()
    ensures longs { LongsAreHeld }
    ensures texts { TextsAreHeld }
    ensures absent { AbsentIsNull }
{}
