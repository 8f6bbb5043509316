//! Worlds that have a row. Each function is a law, and does nothing.
ghost use Rattle.cedar_filter.specs.Worlds.{RowsHaveWorlds, StoredRowsAreRows};

/// Each entity whose attributes and tags are values is a row of some world: what `passes` says of each world that has
/// the row is not said of none.
pub fn rows_have_worlds()
    ensures { RowsHaveWorlds }
{}

/// In a world that agrees with a request whose principal or resource is not known, and with a store, the entity that it
/// turns out to be is the row, if the store has that entity.
pub fn stored_rows_are_rows()
    ensures { StoredRowsAreRows }
{}
