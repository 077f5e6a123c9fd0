//! The splits of the orders of two slabs, and which of them serve best.
ghost use Rattle.std.specs.Prelude.{◌≡◌, ◌<◌, ◌≤◌, ◌+◌, All, length, vec_len};

use crate::dice::Dice;
use crate::draft::Draft;
use mill_model::{Order, OutOfMemory};
use std::alloc::Global;

/// How many orders of a pair go where they may; where it has more, the others stay.
pub const FREE_ORDERS: usize = 10;

/// How a pair is to be laid anew.
#[derive(Clone, Copy, Debug, PartialEq, Eq)]
pub enum Aim {
    /// So that it loses less.
    Less,
    /// So that it loses no more, and the less loses one of its slabs.
    Uneven,
    /// So that it loses no more.
    Any,
}

/// The load of some orders of a pair, and their colours: a bit for each colour of the pair.
#[derive(Clone, Copy, Debug)]
struct Part {
    load: u32,
    colours: u32,
}

impl Part {
    fn none() -> Part {
        Part {
            load: 0,
            colours: 0,
        }
    }

    // With other orders besides.
    fn joined(self, other: Part) -> Part {
        Part {
            load: self.load.saturating_add(other.load),
            colours: self.colours | other.colours,
        }
    }
}

/// What a split loses; of two that lose as much, that comes first which is less even.
#[derive(Clone, Copy, Debug, PartialEq, Eq, PartialOrd, Ord)]
struct Score {
    loss: u64,
    evenness: u64,
}

impl Score {
    // How well a split serves.
    fn of(draft: &Draft, first: Part, second: Part, aim: Aim) -> Score {
        let here = draft.charge(first.load);
        let there = draft.charge(second.load);
        Score {
            loss: here.saturating_add(there),
            evenness: if aim == Aim::Any { 0 } else { here.min(there) },
        }
    }
}

/// The splits of a pair.
#[derive(Drop)]
pub struct Splits {
    // The colours of the pair.
    palette: Vec<u16>,
    // The sets of free orders, whose numbers have a bit for each order.
    parts: Vec<Part>,
    // The sets that serve best.
    ties: Vec<usize>,
}

impl Splits {
    pub fn new(alloc: Global) -> Splits {
        Splits {
            palette: Vec::new(alloc),
            parts: Vec::new(alloc),
            ties: Vec::new(alloc),
        }
    }

    /// Finds the splits that serve best of the orders at some places, which lie on two slabs and
    /// lose so much there. The free ones are the first, counted round from a turn on.
    pub fn find(
        &mut self,
        draft: &Draft,
        places: &[u16],
        turn: usize,
        slab: u16,
        before: u64,
        aim: Aim,
    ) -> Result<(), OutOfMemory>
        requires below { All (λ place. place < length draft.now.links) places.now }
        requires turn { turn < length places.now }
    {
        self.palette.clear();
        self.parts.clear();
        self.parts.push(Part::none())?;
        let mut here = Part::none();
        let mut there = Part::none();
        for index in 0..places.len() {
            let place = turned(draft, places, turn, index);
            let part = self.part_of(draft.order(place))?;
            if index < FREE_ORDERS {
                self.double(part)?;
            } else if draft.slab_of(place) == slab {
                here = here.joined(part);
            } else {
                there = there.joined(part);
            }
        }
        self.compare(draft, here, there, before, aim)
    }

    /// One of the sets found.
    pub fn draw(&self, dice: &mut Dice) -> Option<usize> {
        if self.ties.is_empty() {
            return None;
        }
        Some(self.ties[dice.below(self.ties.len())])
    }

    // An order alone.
    fn part_of(&mut self, order: Order) -> Result<Part, OutOfMemory> {
        let known = self.palette.iter().position(|c| *c == order.colour);
        let number = known.unwrap_or(self.palette.len());
        if known.is_none() {
            self.palette.push(order.colour)?;
        }
        Ok(Part {
            load: order.weight,
            colours: 1 << number.min(31) as u32,
        })
    }

    // Adds the sets that have one more order.
    fn double(&mut self, part: Part) -> Result<(), OutOfMemory> {
        for set in 0..self.parts.len() {
            let more = self.parts[set].joined(part);
            self.parts.push(more)?;
        }
        Ok(())
    }

    // Finds the sets whose splits serve best, with some orders that stay on either slab.
    fn compare(
        &mut self,
        draft: &Draft,
        here: Part,
        there: Part,
        before: u64,
        aim: Aim,
    ) -> Result<(), OutOfMemory> {
        self.ties.clear();
        let mut best = Score {
            loss: if aim == Aim::Less {
                before.saturating_sub(1)
            } else {
                before
            },
            evenness: u64::MAX,
        };
        let sets = self.parts.len();
        for set in 0..sets {
            let first = self.parts[set].joined(here);
            let second = self.parts[sets - 1 - set].joined(there);
            let score = Score::of(draft, first, second, aim);
            if score > best || !are_few(draft, first) || !are_few(draft, second) {
                continue;
            }
            if score < best {
                self.ties.clear();
                best = score;
            }
            self.ties.push(set)?;
        }
        Ok(())
    }
}

// Whether a slab may carry the colours of some orders.
fn are_few(draft: &Draft, part: Part) -> bool {
    part.colours.count_ones() <= u32::from(draft.p())
}

/// The place at an index, counted from a turn on and round.
pub fn turned(draft: &Draft, places: &[u16], turn: usize, index: usize) -> u16
    requires below { All (λ place. place < length draft.now.links) places.now }
    requires turn { turn < length places.now }
    requires index { index < length places.now }
    ensures { result < length draft.now.links }
{
    let last = places.len() - turn;
    places[if index < last {
        turn + index
    } else {
        index - last
    }]
}
