//! Paths under way, and the groups that first fit and best fit give the next order.
ghost use Rattle.std.specs.Prelude.{◌≡◌, ◌≤◌, ◌<◌, ◌+◌, ◌++◌, ◌∷◌, [], List, Some, true, All};
ghost use Rattle.std.specs.Prelude.{length, IfOk};
ghost use Rattle.std.specs.Prelude.{pos, ◌-ℤ◌, slice_get, slice_index};
ghost use Rattle.mill_model.specs.Charges.{Reaches, charge_of};
ghost use Rattle.mill_model.specs.Plan.{loss, IsLegalPlan};
ghost use Rattle.mill_model.specs.Rank.{rank};
ghost use Rattle.mill_model.specs.Starts.{best_fit_path, best_group, first_fit_path};
ghost use Rattle.mill_model.specs.Starts.{first_group, stays_legal};
ghost use Rattle.mill_model.specs.declared.order.Order.{Order};
ghost use Rattle.mill_model.specs.Tree.{next_new};
ghost use Rattle.mill_model.specs.declared.order.TheConstants.{MAX_ORDERS};
ghost use Rattle.order_symmetry.specs.Ranked.{IsPlanOf, orders_of};
ghost use Rattle.split_tree.specs.Node.{AreGroups};
ghost use Rattle.greedy_start.specs.Choice.{IsBestFrom};

use mill_model::{Charges, Order, OutOfMemory, Path, Plan};
use order_symmetry::Ranked;
use slab_rules::OpenSlab;
use split_tree::join_group;
use std::alloc::Global;

// A path under way: the group of each order that it has placed, in rank, and the open slabs of
// these groups.
#[derive(Drop)]
pub(crate) struct OpenPath<'a> {
    ranked: &'a Ranked,
    numbers: Vec<u16>,
    groups: Vec<OpenSlab>,
    ghost are_groups: { AreGroups (record { ranked = ranked.now; path = numbers.items })
        groups.items },
    ghost few_groups: { length groups.items ≤ length numbers.items },
    ghost within: { length numbers.items ≤ length ranked.now.placed },
    ghost few_orders: { length ranked.now.placed ≤ MAX_ORDERS },
    ghost some_colour: { 1 ≤ ranked.now.mill.most_colours },
}

impl<'a> OpenPath<'a> {
    // The path that has placed no order.
    pub(crate) fn new(alloc: Global, ranked: &'a Ranked) -> Result<OpenPath<'a>, OutOfMemory>
        ensures ranked { IfOk result (λ path. path.ranked.now ≡ ranked.now) }
        ensures numbers { IfOk result (λ path. path.numbers.items ≡ []) }
    {
        let orders = ranked.len() as usize;
        Ok(OpenPath {
            ranked,
            numbers: Vec::with_capacity(alloc, orders)?,
            groups: Vec::with_capacity(alloc, orders)?,
        })
    }

    // The first-fit path.
    pub(crate) fn first_fit(alloc: Global, ranked: &'a Ranked) -> Result<OpenPath<'a>, OutOfMemory>
        requires { All (λ order. order.weight ≤ ranked.now.mill.largest) (orders_of ranked.now) }
        ensures ranked { IfOk result (λ path. path.ranked.now ≡ ranked.now) }
        ensures numbers { IfOk result (λ path. path.numbers.items
            ≡ first_fit_path ranked.now.mill (orders_of ranked.now)) }
        ensures whole { IfOk result (λ path.
            length path.numbers.items ≡ length path.ranked.now.placed) }
    {
        let mut path = OpenPath::new(alloc, ranked)?;
        for rank in 0..ranked.len() {
            let order = ranked.order(rank);
            let group = path.first_group(order);
            path = path.go_on(alloc, order, group)?;
        }
        Ok(path)
    }

    // The best-fit path.
    pub(crate) fn best_fit(
        alloc: Global,
        ranked: &'a Ranked,
        charges: &Charges,
    ) -> Result<OpenPath<'a>, OutOfMemory>
        requires light { All (λ order. order.weight ≤ ranked.now.mill.largest)
            (orders_of ranked.now) }
        requires reach { Reaches charges.now ranked.now.mill }
        ensures ranked { IfOk result (λ path. path.ranked.now ≡ ranked.now) }
        ensures numbers { IfOk result (λ path. path.numbers.items
            ≡ best_fit_path ranked.now.mill (charge_of charges.now)
            (orders_of ranked.now)) }
        ensures whole { IfOk result (λ path.
            length path.numbers.items ≡ length path.ranked.now.placed) }
    {
        let mut path = OpenPath::new(alloc, ranked)?;
        for rank in 0..ranked.len() {
            let order = ranked.order(rank);
            let group = path.best_group(alloc, order, charges);
            path = path.go_on(alloc, order, group)?;
        }
        Ok(path)
    }

    // The group that first fit gives the next order.
    pub(crate) fn first_group(&self, order: Order) -> u16
        requires next { slice_get (orders_of self.now.ranked.now) (length self.now.numbers.items)
            ≡ Some order }
        requires light { order.weight ≤ self.now.ranked.now.mill.largest }
        ensures is { result ≡ first_group self.now.ranked.now.mill
            (orders_of self.now.ranked.now) self.now.numbers.items }
        ensures number { result ≤ next_new self.now.numbers.items }
        ensures stays { stays_legal self.now.ranked.now.mill (orders_of self.now.ranked.now)
            self.now.numbers.items result ≡ true }
    {
        for (group, slab) in self.groups.iter().enumerate() {
            if slab.fits(order) {
                return group as u16;
            }
        }
        self.groups.len() as u16
    }

    // The group that best fit gives the next order.
    pub(crate) fn best_group(&self, alloc: Global, order: Order, charges: &Charges) -> u16
        requires next { slice_get (orders_of self.now.ranked.now) (length self.now.numbers.items)
            ≡ Some order }
        requires light { order.weight ≤ self.now.ranked.now.mill.largest }
        requires reach { Reaches charges.now self.now.ranked.now.mill }
        ensures is { result ≡ best_group self.now.ranked.now.mill
            (charge_of charges.now) (orders_of self.now.ranked.now)
            self.now.numbers.items }
        ensures number { result ≤ next_new self.now.numbers.items }
        ensures stays { stays_legal self.now.ranked.now.mill (orders_of self.now.ranked.now)
            self.now.numbers.items result ≡ true }
    {
        let empty = OpenSlab::empty(alloc, self.ranked.largest(), self.ranked.p());
        let mut best = Choice {
            group: self.groups.len(),
            added: added_charge(&empty, order, charges),
        };
        for group in (0..self.groups.len()).rev() {
            best = self.better(best, group, order, charges);
        }
        best.group as u16
    }

    // The choice among the groups from one on, from that among the groups above it.
    fn better(&self, best: Choice, group: usize, order: Order, charges: &Charges) -> Choice
        requires next { slice_get (orders_of self.now.ranked.now) (length self.now.numbers.items)
            ≡ Some order }
        requires reach { Reaches charges.now self.now.ranked.now.mill }
        requires group { group < length self.now.groups.items }
        requires best { IsBestFrom self.now.ranked.now.mill (charge_of charges.now)
            (orders_of self.now.ranked.now) self.now.numbers.items (group + 1) best }
        ensures { IsBestFrom self.now.ranked.now.mill (charge_of charges.now)
            (orders_of self.now.ranked.now) self.now.numbers.items group result }
    {
        let slab = &self.groups[group];
        if !slab.fits(order) {
            return best;
        }
        let added = added_charge(slab, order, charges);
        if best.added < added {
            return best;
        }
        Choice { group, added }
    }

    // The path that goes on with a group for the next order.
    pub(crate) fn go_on(
        self,
        alloc: Global,
        order: Order,
        group: u16,
    ) -> Result<OpenPath<'a>, OutOfMemory>
        requires next { slice_get (orders_of self.ranked.now) (length self.numbers.items)
            ≡ Some order }
        requires number { group ≤ next_new self.numbers.items }
        requires fits { stays_legal self.ranked.now.mill (orders_of self.ranked.now)
            self.numbers.items group ≡ true }
        ensures ranked { IfOk result (λ path. path.ranked.now ≡ self.entry.ranked.now) }
        ensures numbers { IfOk result (λ path.
            path.numbers.items ≡ self.entry.numbers.items ++ group ∷ []) }
    {
        let OpenPath {
            ranked,
            mut numbers,
            mut groups,
        } = self;
        let empty = OpenSlab::empty(alloc, ranked.largest(), ranked.p());
        join_group(&mut groups, &empty, group, order)?;
        numbers.push(group)?;
        Ok(OpenPath {
            ranked,
            numbers,
            groups,
        })
    }

    // What all groups together are charged.
    pub(crate) fn loss(&self, charges: &Charges) -> u64
        requires reach { Reaches charges.now self.now.ranked.now.mill }
        requires whole { length self.now.numbers.items ≡ length self.now.ranked.now.placed }
        ensures { result ≡ loss (charge_of charges.now) self.now.numbers.items
            (orders_of self.now.ranked.now) }
    {
        let mut loss = 0;
        for group in &self.groups {
            loss += charges.charge(group.load());
        }
        loss
    }

    // The plan, in the file's order, of a path that has placed all orders.
    pub(crate) fn into_plan(self, alloc: Global) -> Result<Plan, OutOfMemory>
        requires { length self.numbers.items ≡ length self.ranked.now.placed }
        ensures is { IfOk result (λ plan. (orders : List Order) →
            self.entry.ranked.now.placed ≡ rank orders →
            IsPlanOf orders self.entry.numbers.items plan) }
        ensures legal { IfOk result (λ plan. (orders : List Order) →
            self.entry.ranked.now.placed ≡ rank orders →
            IsLegalPlan self.entry.ranked.now.mill orders plan) }
    {
        self.ranked.plan_of(alloc, &Path::from_list(self.numbers))
    }
}

// A group, and how much more it is charged with the next order.
#[derive(Clone, Copy)]
pub(crate) struct Choice {
    group: usize,
    added: i64,
}

// How much more a slab is charged with one more order.
fn added_charge(slab: &OpenSlab, order: Order, charges: &Charges) -> i64
    requires reach { Reaches charges.now slab.now.mill }
    requires light { slab.now.load + order.weight ≤ slab.now.mill.largest }
    ensures { result ≡ pos (charge_of charges.now (slab.now.load + order.weight))
        -ℤ pos (charge_of charges.now slab.now.load) }
{
    let before = charges.charge(slab.load());
    let after = charges.charge(slab.load() + order.weight);
    after as i64 - before as i64
}
