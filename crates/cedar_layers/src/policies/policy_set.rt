//! Sets of policies.
ghost use Rattle.std.specs.Prelude.{◌≡◌, None, map, IfOk, IfSome};
ghost use Rattle.std.specs.Map.{values_of};
ghost use Rattle.cedar_layers.specs.Policies.{policy_view, policy_ids, first_repeated, first_repeated_id};
ghost use Rattle.cedar_layers.specs.Scopes.{ArePlaced, ArePlaced-prop, ArePicked};
ghost use Rattle.cedar_layers.specs.Scopes.{AreFiledRight, AreFiledRight-prop, AreOfPositions};

use super::policy::{Policy, PolicyID};
use super::scope_index::ScopeIndex;
use cedar_names::EntityUID;
use indexmap::IndexMap;
use indexmap::map::Values;
use std::alloc::{AllocError, AllocFailed, Global};
use thiserror::Error;

/// Policies in order of insertion, no two of one id.
#[derive(Debug)]
pub struct PolicySet {
    policies: IndexMap<PolicyID, Policy>,
    index: ScopeIndex,
    ghost distinct: { first_repeated (policy_ids (map policy_view (values_of policies.entries))) ≡ None },
    ghost indexed: { ArePlaced index (values_of policies.entries) } by { ArePlaced-prop index
        (values_of policies.entries) },
    ghost filed: { AreFiledRight index (values_of policies.entries) } by { AreFiledRight-prop index
        (values_of policies.entries) },
}

impl Drop for PolicySet {
    fn drop(self) {
        let PolicySet {
            policies: _,
            index: _,
        } = self;
    }
}

/// Why policies can't be put into one set.
#[derive(Clone, Debug, PartialEq, Eq, Drop, Error)]
pub enum PolicySetError {
    /// Two policies have this id.
    #[error("duplicate policy id `{id}`")]
    Occupied { id: PolicyID },
    /// There is not enough memory.
    #[error("out of memory")]
    Memory(AllocError),
}

/// Running out of memory is `Memory`, so that `?` takes an `AllocError` where a set is made.
impl From<AllocError> for PolicySetError {
    ghost use Rattle.cedar_layers.specs.declared.policies.policy_set.PolicySetError.TheVariants.{Memory};

    ghost from_gives = { λ x e. e ≡ Memory x };

    fn from(error: AllocError) -> PolicySetError {
        PolicySetError::Memory(error)
    }
}

/// Running out of memory is `Memory`, and what found no room is dropped.
impl<T: Drop> From<AllocFailed<T>> for PolicySetError {
    ghost use Rattle.std.specs.Prelude.{alloc_error};
    ghost use Rattle.cedar_layers.specs.declared.policies.policy_set.PolicySetError.TheVariants.{Memory};

    ghost from_gives = { λ _ e. e ≡ Memory alloc_error };

    fn from(_failed: AllocFailed<T>) -> PolicySetError {
        PolicySetError::Memory(AllocError)
    }
}

impl PolicySet {
    ghost use Rattle.std.specs.Prelude.{true, Some, Ok, OnOk, IfErr, length};
    ghost use Rattle.cedar_names.specs.Names.{uid_name};
    ghost use Rattle.cedar_layers.specs.Scopes.{Places, AreWithinReach, AreLookedAt};
    ghost use Rattle.cedar_layers.specs.PolicySets.{policies_view, stored_policies, policies_left, leaves_out_few};
    ghost use Rattle.cedar_layers.specs.PolicySets.{occupied_id, Adds, IsIdTaken};

    /// The set of these policies. Refuses with `Occupied`, which names the first duplicate id, or if
    /// out of memory.
    pub fn try_from_iter(alloc: Global, policies: Vec<Policy>) -> Result<PolicySet, PolicySetError>
        ensures view { IfOk result (λ s. policies_view s ≡ map policy_view policies.items) }
        ensures whole { IfOk result (λ s. stored_policies s ≡ policies.items) }
        ensures occupied { IfErr result (λ e. IfSome (occupied_id e) (λ i. first_repeated_id policies.items ≡ Some i)) }
    {
        let mut set: IndexMap<PolicyID, Policy> = IndexMap::new(alloc);
        let mut index = ScopeIndex::new(alloc);
        'insert: for policy in policies {
            PolicySet::place(alloc, &mut set, &mut index, policy)?;
        }
        Ok(PolicySet {
            policies: set,
            index,
        })
    }

    // Puts the policy after the others, and into the index.
    fn place(
        alloc: Global,
        set: &mut IndexMap<PolicyID, Policy>,
        index: &mut ScopeIndex,
        policy: Policy,
    ) -> Result<(), PolicySetError>
        ensures ok { OnOk result (Adds set.old.entries set.new.entries policy) }
        ensures occupied { IfErr result (λ e. IfSome (occupied_id e) (λ i. IsIdTaken set.old.entries policy i)) }
        ensures placed { OnOk result (Places index.old index.new (length set.old.entries) (policy_view policy)) }
    {
        match index.place(alloc, &policy, set.len()) {
            Ok(()) => PolicySet::insert(set, policy),
            Err(error) => {
                drop(policy);
                Err(PolicySetError::Memory(error))
            }
        }
    }

    // Puts the policy after the others, or refuses where its id is there.
    fn insert(set: &mut IndexMap<PolicyID, Policy>, policy: Policy) -> Result<(), PolicySetError>
        ensures ok { OnOk result (Adds set.old.entries set.new.entries policy) }
        ensures occupied { IfErr result (λ e. IfSome (occupied_id e) (λ i. IsIdTaken set.old.entries policy i)) }
    {
        if set.contains_key(policy.id()) {
            return Err(PolicySetError::Occupied {
                id: policy.id().clone()?,
            });
        }
        let id = policy.id().clone()?;
        match set.insert(id, policy) {
            Ok(_) => Ok(()),
            Err(_) => Err(PolicySetError::Memory(AllocError)),
        }
    }

    /// Whether the scopes of fewer than half of the policies are known to ask for an entity or a type, so that
    /// `within_reach` leaves out too few of them to be of use, whatever the entities are. A scope is known to ask for an
    /// entity by `==` or `in` beside an entity, a linked slot or a set of entities, alone or after `is`, and for a type
    /// by `is` alone, where the constraints before it are booleans whatever the request is.
    pub fn leaves_out_few(&self) -> bool
        ensures { result ≡ leaves_out_few self.now }
    {
        self.index.is_mostly_rest(self.policies.len())
    }

    /// The policies in order of insertion, but for some that are bound elsewhere: of which the scope asks that
    /// principal, action or resource is one of some entities, or is in one, none of which is one of these, or that it is
    /// of a type that none of these is of. Those that are answered ask so for nothing at all, or for one of these, or
    /// for the type of one. A slot stands for the entity that it is linked to; one that is linked to none asks for no
    /// entity. None, where the index leaves out too few (`leaves_out_few`). Refuses only if out of memory.
    pub fn within_reach(
        &self,
        alloc: Global,
        uids: &[&EntityUID],
    ) -> Result<Option<Vec<&Policy>>, AllocError>
        ensures reach { IfOk result (λ o. IfSome o (λ v. AreWithinReach (map (λ u. uid_name u.now) uids.now)
            (stored_policies self.now) (map (λ p. p.now) v.items))) }
        ensures few { leaves_out_few self.now ≡ true → result ≡ Ok None }
        ensures looked_at { IfOk result (λ o. IfSome o (λ v. AreLookedAt (map (λ u. uid_name u.now) uids.now)
            (map (λ p. p.now) v.items))) }
    {
        if self.leaves_out_few() {
            return Ok(None);
        }
        let positions = self.index.positions(alloc, uids)?;
        pick_policies(alloc, &self.policies, positions)
    }

    /// The policies, in order of insertion.
    pub fn policies(&self) -> Policies<'_>
        ensures view { map policy_view (policies_left result) ≡ policies_view self.now }
        ensures whole { policies_left result ≡ stored_policies self.now }
        ensures distinct { first_repeated (policy_ids (policies_view self.now)) ≡ None }
    {
        Policies {
            policies: self.policies.values(),
        }
    }
}

// The policies at these positions, in the order of insertion. None, where the positions are in another order.
fn pick_policies(
    alloc: Global,
    policies: &IndexMap<PolicyID, Policy>,
    positions: Vec<usize>,
) -> Result<Option<Vec<&Policy>>, AllocError>
    ensures others { IfOk result (λ o. IfSome o (λ v. ArePicked positions.items (values_of policies.now.entries)
        (map (λ p. p.now) v.items))) }
    ensures picked { IfOk result (λ o. IfSome o (λ v. AreOfPositions positions.items (values_of policies.now.entries)
        (map (λ p. p.now) v.items))) }
{
    let mut picked: Vec<&Policy> = Vec::new(alloc);
    let mut next: usize = 0;
    'positions: for at in positions {
        if at < next {
            if next - at > 1 {
                return Ok(None);
            }
        } else {
            if at >= policies.len() {
                return Ok(None);
            }
            match policies.get_index(at) {
                Some((_, policy)) => {
                    picked.push(policy)?;
                    next = at + 1;
                }
                None => return Ok(None),
            }
        }
    }
    Ok(Some(picked))
}

/// The policies, in order of insertion.
impl<'a> IntoIterator for &'a PolicySet {
    ghost use Rattle.cedar_layers.specs.PolicySets.{policies_view, stored_policies, policies_left};

    type Item = &'a Policy;

    type IntoIter = Policies<'a>;

    ghost into_iter_gives = { λ s r. (map policy_view (policies_left r) ≡ policies_view s.now)
        × (first_repeated (policy_ids (policies_view s.now)) ≡ None)
        × (policies_left r ≡ stored_policies s.now) };

    fn into_iter(self) -> Policies<'a> {
        self.policies()
    }
}

/// The policies of a set, in order of insertion.
#[derive(Drop)]
pub struct Policies<'a> {
    policies: Values<'a, PolicyID, Policy>,
}

impl<'a> Iterator for Policies<'a> {
    ghost use Rattle.std.specs.Iterator.{YieldsFirstRef, item_count};
    ghost use Rattle.cedar_layers.specs.PolicySets.{policies_left};

    type Item = &'a Policy;

    ghost next_gives = { YieldsFirstRef policies_left };

    ghost remaining = { item_count policies_left };

    fn next(&mut self) -> Option<&'a Policy> {
        self.policies.next()
    }
}
