//! Prices and their worth at a small node, as minima over all sets of orders, written plainly. The
//! one size is 4.
ghost use Rattle.std.specs.Prelude.{◌≡◌, IfOk, length};

use mill_model::{Charges, Order, OutOfMemory};
use order_symmetry::Ranked;
use std::alloc::Global;

/// What a slab with something on it is charged: so many times what it loses, and something more.
#[derive(Clone, Copy)]
pub struct Charging {
    pub times: u8,
    pub more: u8,
}

impl Charging {
    /// The charges of all loads.
    pub fn table(self, alloc: Global) -> Result<Charges, OutOfMemory>
        ensures { IfOk result (λ charges. length charges.list ≡ 5) }
    {
        let (times, more) = (u64::from(self.times), u64::from(self.more));
        Ok(Charges::from_list(vec![in alloc;
            0,
            3 * times + more,
            2 * times + more,
            times + more,
            more,
        ]?))
    }
}

/// The load of a slab, and its colours as the bits of a number.
#[derive(Clone, Copy)]
struct Slab {
    load: u32,
    colours: u32,
}

const EMPTY: Slab = Slab {
    load: 0,
    colours: 0,
};

impl Slab {
    fn with(self, order: Order) -> Slab {
        Slab {
            load: self.load.saturating_add(order.weight),
            colours: self.colours | (1 << (order.colour % 32)),
        }
    }

    /// Whether it is legal where 4 is the one size.
    fn is_legal(self, p: u8) -> bool {
        self.load <= 4 && self.colours.count_ones() <= u32::from(p)
    }

    /// Sixty times its charge then.
    fn charge(self, charging: Charging) -> i64 {
        if self.load == 0 {
            0
        } else {
            let lost = 4 - i64::from(self.load);
            let charged = i64::from(charging.times).saturating_mul(lost);
            charged
                .saturating_add(i64::from(charging.more))
                .saturating_mul(60)
        }
    }
}

/// The sets of later orders, each the bits of a number, over which a minimum is taken.
#[derive(Clone, Copy)]
enum Sets {
    All,
    With(u32),
    Without(u32),
}

impl Sets {
    fn count(self, set: u32) -> bool {
        match self {
            Sets::All => true,
            Sets::With(i) => is_in(set, i),
            Sets::Without(i) => !is_in(set, i),
        }
    }
}

fn is_in(set: u32, i: u32) -> bool {
    (set >> (i % 32)) & 1 == 1
}

fn lesser(a: Option<i64>, b: Option<i64>) -> Option<i64> {
    match (a, b) {
        (Some(x), Some(y)) => Some(x.min(y)),
        (None, y) => y,
        (x, None) => x,
    }
}

fn difference(a: Option<i64>, b: Option<i64>) -> Option<i64> {
    Some(a?.saturating_sub(b?))
}

/// A node with at most five later orders.
#[derive(Drop)]
pub struct Small {
    p: u8,
    charging: Charging,
    groups: Vec<Slab>,
    rest: Vec<Order>,
}

impl Small {
    /// The node that these numbers lead to.
    pub fn of(
        alloc: Global,
        ranked: &Ranked,
        numbers: &[u16],
        charging: Charging,
    ) -> Result<Small, OutOfMemory> {
        let mut groups: Vec<Slab> = Vec::new(alloc);
        let mut rest = Vec::new(alloc);
        for rank in 0..ranked.len() {
            let order = ranked.order(rank);
            match numbers.get(rank as usize) {
                None => rest.push(order)?,
                Some(&number) => match groups.get_mut(number as usize) {
                    Some(slab) => *slab = slab.with(order),
                    None => groups.push(EMPTY.with(order))?,
                },
            }
        }
        Ok(Small {
            p: ranked.p(),
            charging,
            groups,
            rest,
        })
    }

    /// The least slack of a slab over such sets.
    fn least(&self, slab: Slab, prices: &[i64], sets: Sets) -> Option<i64> {
        let mut least = None;
        for set in 0..32 {
            let mut joined = slab;
            let mut paid = 0i64;
            for i in 0..5 {
                if let (Some(&order), Some(&price)) = (
                    self.rest.get(i as usize),
                    prices.get(i as usize),
                ) {
                    if is_in(set, i) {
                        joined = joined.with(order);
                        paid = paid.saturating_add(price);
                    }
                }
            }
            if joined.is_legal(self.p) && sets.count(set) {
                least = lesser(
                    least,
                    Some(joined.charge(self.charging).saturating_sub(paid)),
                );
            }
        }
        least
    }

    /// The least slack of a new slab with something in it.
    pub fn least_new(&self, prices: &[i64]) -> Option<i64> {
        let mut least = None;
        for i in 0..5 {
            if self.rest.get(i as usize).is_some() {
                least = lesser(least, self.least(EMPTY, prices, Sets::With(i)));
            }
        }
        least
    }

    /// The ascent's prices.
    pub fn ascent(&self, alloc: Global) -> Result<Vec<i64>, OutOfMemory> {
        let zeros = vec![in alloc; 0i64; self.rest.len()]?;
        let mut prices = vec![in alloc; 0i64; self.rest.len()]?;
        for i in 0..5 {
            let mut best = self.least(EMPTY, &prices, Sets::With(i));
            for &group in &self.groups {
                let first = self.least(group, &zeros, Sets::All);
                let held = self.least(group, &prices, Sets::With(i));
                best = lesser(best, difference(held, first));
            }
            if let Some(price) = prices.get_mut(i as usize) {
                *price = best.unwrap_or(0);
            }
        }
        Ok(prices)
    }

    /// One sweep of these prices.
    pub fn sweep(&self, prices: &mut [i64]) {
        for i in 0..5 {
            if let Some(price) = prices.get_mut(i as usize) {
                *price = 0;
            }
            let mut best = self.least(EMPTY, prices, Sets::With(i));
            for &group in &self.groups {
                let without = self.least(group, prices, Sets::Without(i));
                let held = self.least(group, prices, Sets::With(i));
                best = lesser(best, difference(held, without));
            }
            if let Some(price) = prices.get_mut(i as usize) {
                *price = best.unwrap_or(0);
            }
        }
    }

    /// What prices are worth that are valid.
    pub fn worth(&self, prices: &[i64]) -> i64 {
        let mut worth = 0i64;
        for &group in &self.groups {
            worth = worth.saturating_add(self.least(group, prices, Sets::All).unwrap_or(0));
        }
        for &price in prices {
            worth = worth.saturating_add(price);
        }
        worth
    }
}
