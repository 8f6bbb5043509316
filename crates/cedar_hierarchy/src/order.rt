//! The order in which ancestors are computed: parents before their children.
//!
//! What is computed does not depend on this order: each entity's ancestors are proved to be all that parents lead to, in
//! whatever order they come, and a cycle that is found here is looked at once more before it is named. Only how fast that
//! goes depends on it, so nothing but an end is promised here.

use crate::parents::{ParentMap, copy_uid, parents_in};
use cedar_layers::expressions::EntityUID;
use std::alloc::{AllocError, Global};
use std::collections::BTreeSet;

/// An order of uids, and a uid that parents seem to lead back to.
#[derive(Drop)]
pub(crate) struct Order {
    /// Each uid once, behind its parents where no cycle comes between.
    pub(crate) uids: Vec<EntityUID>,
    /// The first that parents were found to lead back to.
    pub(crate) cycle: Option<EntityUID>,
}

// A turn of the search: a uid is come to, or all that its parents lead to is done.
#[derive(Drop)]
enum Turn {
    Enter(EntityUID),
    Leave(EntityUID),
}

// What a search in depth has come to.
#[derive(Drop)]
struct Search {
    turns: Vec<Turn>,
    entered: BTreeSet<EntityUID>,
    left: BTreeSet<EntityUID>,
    order: Order,
}

// The uids of a map of parents in the order of the graph, by a search in depth that looks at each parent once.
pub(crate) fn order_uids(alloc: Global, parents: &ParentMap) -> Result<Order, AllocError> {
    let mut search = begin_search(alloc, parents)?;
    let most = turns_at_most(parents);
    'turns: for _ in 0..most {
        let Some(turn) = search.turns.pop() else {
            return Ok(search.order);
        };
        match turn {
            Turn::Enter(uid) => search.enter(parents, uid)?,
            Turn::Leave(uid) => search.leave(uid)?,
        }
    }
    Ok(search.order)
}

// The search before its first turn: each uid is still to be come to, the least first.
fn begin_search(alloc: Global, parents: &ParentMap) -> Result<Search, AllocError> {
    let mut turns: Vec<Turn> = Vec::new(alloc);
    'uids: for uid in parents.keys().rev() {
        turns.push(Turn::Enter(copy_uid(uid)?))?;
    }
    Ok(Search {
        turns,
        entered: BTreeSet::new(alloc),
        left: BTreeSet::new(alloc),
        order: Order {
            uids: Vec::new(alloc),
            cycle: None,
        },
    })
}

// No search takes more turns: each uid is come to at first, by each of its children, and left once.
fn turns_at_most(parents: &ParentMap) -> usize {
    let mut most: usize = 0;
    'lists: for own in parents.values() {
        most = most.saturating_add(own.len()).saturating_add(2);
    }
    most
}

impl Search {
    // Comes to a uid: its parents first, where they weren't come to; one that wasn't left is on a cycle.
    fn enter(&mut self, parents: &ParentMap, uid: EntityUID) -> Result<(), AllocError> {
        if !self.entered.insert(copy_uid(&uid)?)? {
            return Ok(());
        }
        let own = parents_in(parents, &uid);
        self.turns.push(Turn::Leave(copy_uid(&uid)?))?;
        match own {
            Some(own) => self.enter_each(parents, own),
            None => Ok(()),
        }
    }

    // Comes to each of these parents.
    fn enter_each(&mut self, parents: &ParentMap, own: &Vec<EntityUID>) -> Result<(), AllocError> {
        'parents: for parent in own {
            if !self.entered.contains(parent) {
                if parents.contains_key(parent) {
                    self.turns.push(Turn::Enter(copy_uid(parent)?))?;
                }
            } else if self.order.cycle.is_none() && !self.left.contains(parent) {
                self.order.cycle = Some(copy_uid(parent)?);
            }
        }
        Ok(())
    }

    // Leaves a uid: it follows all that its parents lead to.
    fn leave(&mut self, uid: EntityUID) -> Result<(), AllocError> {
        self.left.insert(copy_uid(&uid)?)?;
        self.order.uids.push(uid)?;
        Ok(())
    }
}
