//! Numbers that are drawn from a seed, and the orders that they make.
ghost use Rattle.std.specs.Prelude.{◌≡◌, ℕ, ◌+◌, ◌*◌};
ghost use Rattle.instance_drill.specs.Draws.{draw_of, next_state, state_after};
ghost use Rattle.instance_drill.specs.Drilled.{order_at};

use mill_model::Order;

// The generator is the one that the C standard shows as an example of `rand`: each state is the one
// before it times the factor, plus the addend, modulo the modulus.
const FACTOR: u64 = 1_103_515_245;

const ADDEND: u64 = 12_345;

const MODULUS: u32 = 1 << 31;

// The low bits of a state come again soon, so a draw leaves the lowest 16 out, as there.
const DIVISOR: u32 = 1 << 16;

// The greatest weight of an order: half of the largest size.
const MAX_WEIGHT: u32 = 22;

/// The number of colours that each instance states, and of which its orders are.
pub const COLOURS: u16 = 20;

/// The numbers that are drawn from a seed, one after the other.
#[derive(Debug, Drop)]
pub struct Draws {
    state: u32,
}

impl Draws {
    /// No number is drawn yet.
    pub fn new(seed: u32) -> Draws
        ensures { result.state ≡ state_after seed 0 }
    {
        Draws {
            state: seed % MODULUS,
        }
    }

    /// Draws a number.
    pub fn draw(&mut self) -> u32
        ensures state { self.new.state ≡ next_state self.old.state }
        ensures drawn { result ≡ draw_of self.new.state }
    {
        let next = (u64::from(self.state) * FACTOR + ADDEND) % u64::from(MODULUS);
        self.state = next as u32;
        self.state / DIVISOR
    }

    /// Draws an order: its weight first, and then its colour.
    pub fn order(&mut self) -> Order
        ensures order { (seed place : ℕ) → self.old.state ≡ state_after seed (2 * place)
            → result ≡ order_at seed place }
        ensures state { (seed place : ℕ) → self.old.state ≡ state_after seed (2 * place)
            → self.new.state ≡ state_after seed (2 * (place + 1)) }
    {
        let weight = 1 + self.draw() % MAX_WEIGHT;
        let colour = 1 + (self.draw() % u32::from(COLOURS)) as u16;
        Order { weight, colour }
    }
}
