//! A slab that orders join one by one: which order still fits, and what the slab carries.
ghost use Rattle.std.specs.Prelude.{◌≡◌, ◌≤◌, ◌↔◌, ◌++◌, ◌∷◌, [], List, IsTrue, true};
ghost use Rattle.list_laws.specs.Sets.{holds};
ghost use Rattle.mill_model.specs.Slab.{legal};
ghost use Rattle.mill_model.specs.declared.order.Order.{Order};
ghost use Rattle.slab_rules.specs.OpenSlab.{empty_on, joined, IsWithinBounds, IsOpenSlab, Carries};

use mill_model::Order;
use smallvec::SmallVec;
use std::alloc::Global;
use std::marker::Model;

/// A slab that more orders may join, by its load and its colours.
///
/// The colours stand inline, so that no call takes memory.
#[derive(Debug, Drop)]
pub struct OpenSlab {
    load: u32,
    colours: SmallVec<u16, 8>,
    largest: u32,
    p: u8,
}

impl Model for OpenSlab {
    ghost use Rattle.std.specs.Prelude.{◌≡◌};
    ghost use Rattle.slab_rules.specs.OpenSlab.{OpenSlab, IsOpenSlab};

    ghost Value = { OpenSlab };

    ghost view = { λ s. record {
      load = s.load;
      colours = s.colours.items;
      mill = record { largest = s.largest; most_colours = s.p };
    } };

    ghost invariant = { λ s. (s.colours.capacity ≡ 8) × IsOpenSlab (record {
      load = s.load;
      colours = s.colours.items;
      mill = record { largest = s.largest; most_colours = s.p };
    }) };
}

impl OpenSlab {
    /// A slab with no order, of a mill whose largest size is `largest` and whose slabs may carry
    /// `p` colours.
    pub fn empty(alloc: Global, largest: u32, p: u8) -> OpenSlab
        requires size_limit { largest ≤ 20000 }
        requires some_colour { 1 ≤ p }
        requires colour_limit { p ≤ 8 }
        ensures is { result ≡ empty_on (record { largest = largest; most_colours = p }) }
        ensures carries { Carries result [] }
    {
        OpenSlab {
            load: 0,
            colours: SmallVec::new(alloc),
            largest,
            p,
        }
    }

    /// The sum of the weights of its orders.
    pub fn load(&self) -> u32
        ensures is { result ≡ self.now.load }
        ensures kept { IsOpenSlab self.now }
    {
        self.load
    }

    /// The colours of its orders, each once, as they came.
    pub fn colours(&self) -> &[u16]
        ensures is { result.now ≡ self.now.colours }
        ensures kept { IsOpenSlab self.now }
    {
        self.colours.as_slice()
    }

    /// Whether the slab stays legal with one more order.
    pub fn fits(&self, order: Order) -> bool
        ensures bounds { IsTrue result ↔ IsWithinBounds (joined self.now order) }
        ensures legal { (orders : List Order) → Carries self.now orders →
            IsTrue result ↔ (legal self.now.mill (orders ++ order ∷ []) ≡ true) }
    {
        order.weight <= self.largest - self.load
            && (self.has(order.colour) || self.colours.len() < self.p as usize)
    }

    /// Adds an order.
    pub fn join(&mut self, order: Order)
        requires { IsWithinBounds (joined self.old order) }
        ensures is { self.new ≡ joined self.old order }
        ensures carries { (orders : List Order) → Carries self.old orders →
            Carries self.new (orders ++ order ∷ []) }
    {
        if !self.has(order.colour) {
            self.colours.push_reserved(order.colour);
        }
        self.load += order.weight;
    }

    /// The same slab once more.
    pub fn copy(&self) -> OpenSlab
        ensures { result ≡ self.now }
    {
        let alloc = *self.colours.allocator();
        OpenSlab {
            load: self.load,
            colours: SmallVec::from_slice(alloc, self.colours.as_slice()).unwrap(),
            largest: self.largest,
            p: self.p,
        }
    }

    // Whether one of its orders has this colour.
    fn has(&self, colour: u16) -> bool
        ensures { result ≡ holds colour self.now.colours }
    {
        self.colours.as_slice().contains(&colour)
    }
}
