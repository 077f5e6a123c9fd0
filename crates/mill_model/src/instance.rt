//! An instance: the sizes of slabs, the orders, and how many colours a slab may carry.
ghost use Rattle.std.specs.Prelude.{◌≡◌};
ghost use Rattle.mill_model.specs.Instance.{AreSizesOf, IsInstance, IsWithin, largest};

use crate::Order;
use std::marker::Model;

/// What is to be planned: the sizes of slabs, the orders, and how many colours a slab may carry.
#[derive(Debug, Drop)]
pub struct Instance {
    sizes: Vec<u32>,
    colours: u16,
    orders: Vec<Order>,
    p: u8,
}

impl Model for Instance {
    ghost use Rattle.mill_model.specs.Instance.{IsInstance, Problem};

    ghost Value = { Problem };

    ghost view = { λ i. record {
      sizes = i.sizes.items;
      stated = i.colours;
      orders = i.orders.items;
      p = i.p;
    } };

    ghost invariant = { λ i. IsInstance (record {
      sizes = i.sizes.items;
      stated = i.colours;
      orders = i.orders.items;
      p = i.p;
    }) };
}

impl Instance {
    /// An instance of these sizes, which may come in any order and repeat, with its stated number
    /// of colours, which no rule uses.
    pub fn new(mut sizes: Vec<u32>, colours: u16, orders: Vec<Order>, p: u8) -> Instance
        requires { IsWithin sizes.items colours orders.items p }
        ensures sizes { AreSizesOf sizes.items result.sizes }
        ensures stated { result.stated ≡ colours }
        ensures orders { result.orders ≡ orders.items }
        ensures p { result.p ≡ p }
    {
        sizes.sort_unstable();
        sizes.dedup();
        Instance {
            sizes,
            colours,
            orders,
            p,
        }
    }

    /// The sizes, strictly rising.
    pub fn sizes(&self) -> &[u32]
        ensures is { result.now ≡ self.now.sizes }
        ensures kept { IsInstance self.now }
    {
        &self.sizes
    }

    /// The number of colours that the instance states.
    pub fn colours(&self) -> u16
        ensures is { result ≡ self.now.stated }
        ensures kept { IsInstance self.now }
    {
        self.colours
    }

    /// The orders, as they stand in the file.
    pub fn orders(&self) -> &[Order]
        ensures is { result.now ≡ self.now.orders }
        ensures kept { IsInstance self.now }
    {
        &self.orders
    }

    /// How many colours a slab may carry.
    pub fn p(&self) -> u8
        ensures is { result ≡ self.now.p }
        ensures kept { IsInstance self.now }
    {
        self.p
    }

    /// The largest size.
    pub fn largest(&self) -> u32
        ensures is { result ≡ largest self.now.sizes }
        ensures kept { IsInstance self.now }
    {
        self.sizes[self.sizes.len() - 1]
    }
}
