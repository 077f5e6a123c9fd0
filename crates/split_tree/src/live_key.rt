// Live keys: what of a node the orders that it hasn't placed see.

ghost use Rattle.std.specs.Prelude.{◌≡◌, ◌≤◌, List, filter, map, length, IfOk, refl};
ghost use Rattle.std.specs.List.Sorted.{IsStrictlyIncreasing};
ghost use Rattle.list_laws.specs.Sets.{holds};
ghost use Rattle.mill_model.specs.Charges.{Reaches, charge_of};
ghost use Rattle.mill_model.specs.LiveKey.{dead_loss, is_live};
ghost use Rattle.mill_model.specs.declared.order.Order.{Order};
ghost use Rattle.order_symmetry.specs.Ranked.{orders_of};
ghost use Rattle.slab_rules.specs.OpenSlab.{Carries};
ghost use Rattle.split_tree.specs.Keys.{IsLiveKey, IsRisingListOf, key_group, key_order, padded};
ghost use Rattle.split_tree.specs.Keys.{EqualKeysAreSameLiveKeys, fed_of_key, rest_of, same_key};
ghost use Rattle.split_tree.specs.KeyLaws.{key_equal, key_total, same-keys-give-same};
ghost use Rattle.std.specs.Cmp.{partial_equiv_from_equiv, partial_order_from_agreeing_total};
ghost use Rattle.std.specs.Ordering.{as_partial_cmp};

use crate::node::NodeState;
use mill_model::{Charges, OutOfMemory};
use slab_rules::OpenSlab;
use std::alloc::Global;
use std::cmp::Ordering;
use std::hash::{Hash, Hasher};
use std::marker::Model;

/// Stands in the places of a key's group behind its last colour. No order has it.
pub const NO_COLOUR: u16 = 65535;

/// A live group as the later orders see it.
#[derive(Clone, Copy, Debug, Drop, PartialEq, Eq, PartialOrd, Ord, Hash)]
pub struct KeyGroup {
    pub load: u32,
    /// How many colours it has.
    pub colours: u16,
    /// Those of its colours that some later order has, rising, with `NO_COLOUR` behind.
    pub coming: [u16; 8],
}

/// How many orders a path has placed, and its live groups in one order, as the orders to come see
/// them.
#[derive(Debug, Drop)]
pub struct LiveKey {
    depth: u16,
    groups: Vec<KeyGroup>,
}

impl Model for LiveKey {
    ghost use Rattle.split_tree.specs.Keys.{Key};

    ghost Value = { Key };

    ghost view = { λ k. record { depth = k.depth; groups = k.groups.items } };
}

impl LiveKey {
    /// How many orders are placed.
    pub fn depth(&self) -> u16
        ensures { result ≡ self.now.depth }
    {
        self.depth
    }

    /// The live groups, in the order of their loads, numbers of colours and coming colours.
    pub fn groups(&self) -> &[KeyGroup]
        ensures { result.now ≡ self.now.groups }
    {
        &self.groups
    }

    /// The same key once more.
    pub fn copy(&self) -> Result<LiveKey, OutOfMemory>
        ensures { IfOk result (λ key. key ≡ self.now) }
    {
        Ok(LiveKey {
            depth: self.depth,
            groups: self.groups.to_vec(*self.groups.allocator())?,
        })
    }
}

/// Two keys of paths of one tree are equal exactly where the paths' live keys are the same.
pub fn equal_keys_are_same_live_keys()
    ensures { EqualKeysAreSameLiveKeys }
{}

impl PartialEq for LiveKey {
    ghost eq = { same_key };

    ghost laws = { partial_equiv_from_equiv key_equal };

    fn eq(&self, other: &LiveKey) -> bool {
        self.cmp(other) == Ordering::Equal
    }
}

impl Eq for LiveKey {
    ghost laws = { key_equal };
}

impl Hash for LiveKey {
    ghost hash_input = { fed_of_key };

    ghost respects_eq = { same-keys-give-same fed_of_key };

    fn hash<H: Hasher>(&self, state: &mut H) {
        self.depth.hash(state);
        self.groups.hash(state);
    }
}

impl PartialOrd for LiveKey {
    ghost partial_cmp = { as_partial_cmp key_order };

    ghost laws = { partial_order_from_agreeing_total key_order key_total (λ a b. refl)
        (λ a b. refl) };

    fn partial_cmp(&self, other: &LiveKey) -> Option<Ordering> {
        Some(self.cmp(other))
    }
}

impl Ord for LiveKey {
    ghost cmp = { key_order };

    ghost total = { key_total };

    ghost matches_partial_cmp = { λ a b. refl };

    ghost matches_eq = { λ a b. refl };

    fn cmp(&self, other: &LiveKey) -> Ordering {
        self.depth
            .cmp(&other.depth)
            .then(self.groups.cmp(&other.groups))
    }
}

impl<'a> NodeState<'a> {
    /// The live key of the path.
    pub fn live_key(&self, alloc: Global) -> Result<LiveKey, OutOfMemory>
        ensures { IfOk result (IsLiveKey self.now) }
    {
        let coming = self.coming_colours(alloc)?;
        let mut groups = Vec::with_capacity(alloc, self.groups().len())?;
        for slab in self.groups() {
            if self.is_live(slab) {
                groups.push(key_group(slab, &coming))?;
            }
        }
        groups.sort_unstable();
        Ok(LiveKey {
            depth: self.depth(),
            groups,
        })
    }

    /// What the groups that aren't live are charged.
    pub fn dead_loss(&self, charges: &Charges) -> u64
        requires { Reaches charges.now self.now.ranked.mill }
        ensures { result ≡ dead_loss self.now.ranked.mill (charge_of charges.now)
            (orders_of self.now.ranked) self.now.path }
    {
        let mut loss = 0;
        for slab in self.groups() {
            if !self.is_live(slab) {
                loss += charges.charge(slab.load());
            }
        }
        loss
    }

    // Whether an order that the path hasn't placed may join a slab alone.
    fn is_live(&self, slab: &OpenSlab) -> bool
        requires { slab.now.mill ≡ self.now.ranked.mill }
        ensures { (orders : List Order) → Carries slab.now orders →
            result ≡ is_live self.now.ranked.mill (rest_of self.now) orders }
    {
        for rank in self.depth()..self.ranked().len() {
            if slab.fits(self.ranked().order(rank)) {
                return true;
            }
        }
        false
    }

    // The colours of the orders that the path hasn't placed.
    fn coming_colours(&self, alloc: Global) -> Result<Vec<u16>, OutOfMemory>
        ensures { IfOk result (λ list.
            IsRisingListOf (map (λ order. order.colour) (rest_of self.now)) list.items) }
    {
        let mut colours = Vec::with_capacity(alloc, self.ranked().len() as usize)?;
        for rank in self.depth()..self.ranked().len() {
            colours.push(self.ranked().order(rank).colour)?;
        }
        colours.sort_unstable();
        colours.dedup();
        Ok(colours)
    }
}

// A group as orders of some colours see it.
fn key_group(slab: &OpenSlab, coming: &[u16]) -> KeyGroup
    requires { IsStrictlyIncreasing coming.now }
    ensures { (orders : List Order) → Carries slab.now orders →
        result ≡ key_group coming.now orders }
{
    KeyGroup {
        load: slab.load(),
        colours: slab.colours().len() as u16,
        coming: coming_among(slab.colours(), coming),
    }
}

// Those of at most eight colours that come again, which are given rising, with `NO_COLOUR` behind.
fn coming_among(colours: &[u16], coming: &[u16]) -> [u16; 8]
    requires few { length colours.now ≤ 8 }
    requires rising { IsStrictlyIncreasing coming.now }
    ensures { result ≡ padded (filter (λ c. holds c colours.now) coming.now) }
{
    let mut among = [NO_COLOUR; 8];
    let mut count = 0;
    for i in 0..coming.len() {
        let colour = coming[i];
        if colours.contains(&colour) {
            among[count] = colour;
            count += 1;
        }
    }
    among
}
