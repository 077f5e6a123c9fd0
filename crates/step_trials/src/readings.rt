//! A plain reading of a path's live key and dead loss, on slabs of size 4 that are charged what is
//! left of them: from the orders in rank and the path's numbers, with no part of the search.

use mill_model::{Order, OutOfMemory};
use std::alloc::Global;

/// A group of a path: its load, and its colours, each once.
#[derive(Debug, Drop)]
struct Group {
    load: u32,
    colours: Vec<u16>,
}

impl Group {
    fn has(&self, colour: u16) -> bool {
        self.colours.contains(&colour)
    }

    fn join(&mut self, order: Order) -> Result<(), OutOfMemory> {
        self.load = self.load.saturating_add(order.weight);
        if !self.has(order.colour) {
            self.colours.push(order.colour)?;
        }
        Ok(())
    }

    // Whether an order may join it alone.
    fn takes(&self, order: Order, p: u8) -> bool {
        let room = self.colours.len() < usize::from(p);
        self.load.saturating_add(order.weight) <= 4 && (room || self.has(order.colour))
    }
}

/// A live group as later orders see it.
#[derive(Debug, Drop)]
struct Live {
    load: u32,
    colours: usize,
    coming: Vec<u16>,
}

impl Live {
    fn is_like(&self, other: &Live) -> bool {
        let mut same = self.load == other.load
            && self.colours == other.colours
            && self.coming.len() == other.coming.len();
        for colour in &self.coming {
            same = same && other.coming.contains(colour);
        }
        same
    }
}

/// A path as later orders see it.
#[derive(Debug, Drop)]
pub struct Reading {
    depth: usize,
    live: Vec<Live>,
    /// What the other groups are charged.
    pub dead_loss: u64,
}

impl Reading {
    /// The reading of a path for orders in rank.
    pub fn of(
        alloc: Global,
        orders: &[Order],
        path: &[u16],
        p: u8,
    ) -> Result<Reading, OutOfMemory> {
        let later = orders.get(path.len()..).unwrap_or(&[]);
        let mut live = Vec::new(alloc);
        let mut dead_loss = 0u64;
        for group in &groups_of(alloc, orders, path)? {
            if later.iter().any(|order| group.takes(*order, p)) {
                live.push(Live {
                    load: group.load,
                    colours: group.colours.len(),
                    coming: coming(alloc, group, later)?,
                })?;
            } else {
                let left = 4u32.saturating_sub(group.load);
                dead_loss = dead_loss.saturating_add(u64::from(left));
            }
        }
        Ok(Reading {
            depth: path.len(),
            live,
            dead_loss,
        })
    }

    /// Whether the depths are equal, and each live group stands in both equally often.
    pub fn has_key_of(&self, other: &Reading) -> bool {
        let mut same = self.depth == other.depth && self.live.len() == other.live.len();
        for live in &self.live {
            same = same && self.times(live) == other.times(live);
        }
        same
    }

    fn times(&self, live: &Live) -> u32 {
        let mut times = 0u32;
        for own in &self.live {
            if own.is_like(live) {
                times = times.saturating_add(1);
            }
        }
        times
    }
}

// The groups of a path, by number.
fn groups_of(alloc: Global, orders: &[Order], path: &[u16]) -> Result<Vec<Group>, OutOfMemory> {
    let mut groups: Vec<Group> = Vec::new(alloc);
    for (&order, &number) in orders.iter().zip(path) {
        if usize::from(number) >= groups.len() {
            groups.push(Group {
                load: 0,
                colours: Vec::new(alloc),
            })?;
        }
        if let Some(group) = groups.get_mut(usize::from(number)) {
            group.join(order)?;
        }
    }
    Ok(groups)
}

// Those of a group's colours that come again.
fn coming(alloc: Global, group: &Group, later: &[Order]) -> Result<Vec<u16>, OutOfMemory> {
    let mut coming = Vec::new(alloc);
    for &colour in &group.colours {
        if later.iter().any(|order| order.colour == colour) {
            coming.push(colour)?;
        }
    }
    Ok(coming)
}
