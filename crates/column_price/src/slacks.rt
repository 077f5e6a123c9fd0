// The least slacks at a node under prices that change one at a time. Only this file and that of two
// colours know how they are found.

ghost use Rattle.std.specs.Prelude.{◌≡◌, ◌+◌, ◌<◌, length, set, IfOk, IfSome};
ghost use Rattle.mill_model.specs.Bounds.{least_new, least_new_with, least_on_with};
ghost use Rattle.mill_model.specs.Bounds.{least_on_without, no_prices};
ghost use Rattle.mill_model.specs.Charges.{Reaches, charge_of};
ghost use Rattle.mill_model.specs.Limits.{IsPrice};
ghost use Rattle.mill_model.specs.Prices.{least_slack};
ghost use Rattle.mill_model.specs.Tree.{next_new};
ghost use Rattle.set_minima.specs.Cells.{IsSmall, slack_limit};
ghost use Rattle.split_tree.specs.Node.{IsNode, group_of};
ghost use Rattle.column_price.specs.Nodes.{IsPricing, AreFor, AreSlacks, rest_of, with_prices};
ghost use Rattle.column_price.specs.Served.{Serves};

use crate::two_colours::{least_new_at, least_on_with_at, least_on_without_at, tables_of};
use colour_tables::ColourTables;
use knap_bound::Knapsack;
use mill_model::{Charges, OutOfMemory, Prices};
use split_tree::NodeState;
use std::alloc::Global;
use std::marker::Model;

/// What least slacks are found in: where a slab carries at most two colours, tables that are mended
/// price by price; else a knapsack for each slack.
#[derive(Drop)]
pub(crate) enum Tables<'a> {
    Colours(ColourTables<'a>),
    Layers(Knapsack<'a>),
}

/// The tables for a node with these prices.
fn tables_for<'a>(
    alloc: Global,
    node: &'a NodeState,
    charges: &'a Charges,
    prices: &[i64],
) -> Result<Tables<'a>, OutOfMemory>
    requires reach { Reaches charges.now node.now.ranked.mill }
    requires prices { AreFor node.now prices.now }
    ensures serves { IfOk result (Serves (record {
      node = node.now;
      charges = charges.now;
      prices = prices.now;
    })) }
    ensures kept { IsNode node.now }
{
    if node.ranked().p() == 2 {
        Ok(Tables::Colours(tables_of(alloc, node, charges, prices)?))
    } else {
        let knapsack = Knapsack::new(alloc, node.ranked(), charges, node.depth())?;
        Ok(Tables::Layers(knapsack))
    }
}

/// A node with a price for each order that it hasn't placed, and the tables in which least slacks
/// are found. Once it is made, only `on_groups` takes memory.
#[derive(Drop)]
pub(crate) struct LeastSlacks<'a, 'b> {
    node: &'a NodeState<'b>,
    charges: &'a Charges,
    tables: Tables<'a>,
    prices: Vec<i64>,
}

impl<'a, 'b> Model for LeastSlacks<'a, 'b> {
    ghost use Rattle.std.specs.Prelude.{◌≤◌};
    ghost use Rattle.split_tree.specs.Node.{IsNode};
    ghost use Rattle.column_price.specs.Nodes.{Pricing, AreFor};
    ghost use Rattle.column_price.specs.Served.{Serves};

    ghost Value = { Pricing };

    ghost view = { λ s. record {
      node = s.node.now;
      charges = s.charges.now;
      prices = s.prices.items;
    } };

    ghost invariant = { λ s. IsNode s.node.now × AreFor s.node.now s.prices.items
        × Serves (record {
          node = s.node.now;
          charges = s.charges.now;
          prices = s.prices.items;
        }) s.tables };
}

impl<'a, 'b> LeastSlacks<'a, 'b> {
    // A node with these prices.
    fn new(
        alloc: Global,
        node: &'a NodeState<'b>,
        charges: &'a Charges,
        prices: Vec<i64>,
    ) -> Result<LeastSlacks<'a, 'b>, OutOfMemory>
        requires reach { Reaches charges.now node.now.ranked.mill }
        requires prices { AreFor node.now prices.items }
        ensures { IfOk result (λ slacks. slacks
            ≡ record { node = node.now; charges = charges.now; prices = prices.items }) }
    {
        let tables = tables_for(alloc, node, charges, &prices)?;
        Ok(LeastSlacks {
            node,
            charges,
            tables,
            prices,
        })
    }

    /// A node with these prices, one for each order that it hasn't placed.
    pub(crate) fn of(
        alloc: Global,
        node: &'a NodeState<'b>,
        charges: &'a Charges,
        prices: &Prices,
    ) -> Result<LeastSlacks<'a, 'b>, OutOfMemory>
        requires reach { Reaches charges.now node.now.ranked.mill }
        requires one_each { length node.now.path + length prices.now
            ≡ length node.now.ranked.placed }
        ensures { IfOk result (λ slacks. slacks
            ≡ record { node = node.now; charges = charges.now; prices = prices.now }) }
    {
        let list = prices.list().to_vec(alloc)?;
        LeastSlacks::new(alloc, node, charges, list)
    }

    /// A node with prices of zero.
    pub(crate) fn without_prices(
        alloc: Global,
        node: &'a NodeState<'b>,
        charges: &'a Charges,
    ) -> Result<LeastSlacks<'a, 'b>, OutOfMemory>
        requires reach { Reaches charges.now node.now.ranked.mill }
        ensures { IfOk result (λ slacks. slacks ≡ record {
          node = node.now;
          charges = charges.now;
          prices = no_prices (rest_of node.now);
        }) }
    {
        let later = (node.ranked().len() - node.depth()) as usize;
        LeastSlacks::new(alloc, node, charges, vec![in alloc; 0i64; later]?)
    }

    /// The prices.
    pub(crate) fn prices(&self) -> &[i64]
        ensures is { result.now ≡ self.now.prices }
        ensures kept { IsPricing self.now }
    {
        &self.prices
    }

    /// The prices, of which nothing else is kept.
    pub(crate) fn into_prices(self) -> Prices
        ensures is { result ≡ self.entry.prices }
    {
        Prices::from_list(self.prices)
    }

    /// Sets the price of the order at `i`.
    pub(crate) fn set_price(&mut self, i: usize, price: i64)
        requires here { i < length self.old.prices }
        requires price { IsPrice price }
        ensures { self.new ≡ with_prices self.old (set self.old.prices i price) }
    {
        self.prices[i] = price;
        match &mut self.tables {
            Tables::Colours(tables) => tables.set_price(i, price),
            Tables::Layers(_) => {}
        }
    }

    /// The least slack of a new slab with something in it. None where no order fits a slab.
    pub(crate) fn on_new(&mut self) -> Option<i64>
        ensures is { result ≡ least_new self.old.node.ranked.mill (charge_of self.old.charges)
            (rest_of self.old.node) self.old.prices }
        ensures kept { self.new ≡ self.old }
    {
        match &mut self.tables {
            Tables::Colours(tables) => tables.least_new(),
            Tables::Layers(knapsack) => knapsack.least_new(&self.prices),
        }
    }

    /// The least slack of a new slab with the order at `i`. None where that order fits no slab.
    pub(crate) fn on_new_with(&mut self, i: usize) -> Option<i64>
        requires here { i < length self.old.prices }
        ensures is { result ≡ least_new_with self.old.node.ranked.mill
            (charge_of self.old.charges) (rest_of self.old.node) self.old.prices i }
        ensures small { IfSome result (IsSmall slack_limit) }
        ensures pricing { IsPricing self.old }
        ensures kept { self.new ≡ self.old }
    {
        match &mut self.tables {
            Tables::Colours(tables) => least_new_at(tables, &self.prices, i),
            Tables::Layers(knapsack) => knapsack.least_new_with(&self.prices, i),
        }
    }

    /// The least slack of a group over the sets that hold the order at `i`. None where that order
    /// can't join the group.
    pub(crate) fn on_group_with(&mut self, g: usize, i: usize) -> Option<i64>
        requires group { g < next_new self.old.node.path }
        requires here { i < length self.old.prices }
        ensures is { result ≡ least_on_with self.old.node.ranked.mill (charge_of self.old.charges)
            (group_of self.old.node g) (rest_of self.old.node) self.old.prices i }
        ensures small { IfSome result (IsSmall slack_limit) }
        ensures pricing { IsPricing self.old }
        ensures kept { self.new ≡ self.old }
    {
        let groups = self.node.groups();
        match &mut self.tables {
            Tables::Colours(tables) => least_on_with_at(tables, &self.prices, g, i),
            Tables::Layers(knapsack) => knapsack.least_on_with(&groups[g], &self.prices, i),
        }
    }

    /// The least slack of a group over the sets that don't hold the order at `i`.
    pub(crate) fn on_group_without(&mut self, g: usize, i: usize) -> Option<i64>
        requires group { g < next_new self.old.node.path }
        ensures is { result ≡ least_on_without self.old.node.ranked.mill
            (charge_of self.old.charges) (group_of self.old.node g) (rest_of self.old.node)
            self.old.prices i }
        ensures small { IfSome result (IsSmall slack_limit) }
        ensures kept { self.new ≡ self.old }
    {
        let groups = self.node.groups();
        match &mut self.tables {
            Tables::Colours(tables) => least_on_without_at(tables, &self.prices, g, i),
            Tables::Layers(knapsack) => knapsack.least_on_without(&groups[g], &self.prices, i),
        }
    }

    /// The least slack of a group.
    fn on_group(&mut self, g: usize) -> i64
        requires group { g < next_new self.old.node.path }
        ensures is { result ≡ least_slack self.old.node.ranked.mill (charge_of self.old.charges)
            (group_of self.old.node g) (rest_of self.old.node) self.old.prices }
        ensures small { IsSmall slack_limit result }
        ensures kept { self.new ≡ self.old }
    {
        let groups = self.node.groups();
        match &mut self.tables {
            Tables::Colours(tables) => tables.least_on(g),
            Tables::Layers(knapsack) => knapsack.least_on(&groups[g], &self.prices),
        }
    }

    /// How many groups the node has.
    fn groups(&self) -> usize
        ensures is { result ≡ next_new self.now.node.path }
        ensures kept { IsPricing self.now }
    {
        self.node.groups().len()
    }

    /// The least slack of each group, by rising number.
    pub(crate) fn on_groups(&mut self, alloc: Global) -> Result<Vec<i64>, OutOfMemory>
        ensures slacks { IfOk result (λ slacks. AreSlacks self.old.node (charge_of self.old.charges)
            self.old.prices slacks.items) }
        ensures pricing { IsPricing self.old }
        ensures kept { self.new ≡ self.old }
    {
        let groups = self.groups();
        let mut slacks = Vec::with_capacity(alloc, groups)?;
        for g in 0..groups {
            slacks.push(self.on_group(g))?;
        }
        Ok(slacks)
    }
}
