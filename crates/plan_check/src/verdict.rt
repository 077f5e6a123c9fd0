/// What a plan is found to be.
///
/// A slab that is both too heavy and too colourful counts as heavy.
#[derive(Clone, Copy, Debug, Drop, PartialEq, Eq)]
pub enum Verdict {
    /// Each slab is legal.
    Legal {
        /// The sum of the charges of its slabs.
        loss: u64,
    },
    /// The lowest slab that isn't legal exceeds the largest size.
    Heavy {
        /// Its number, from 0.
        slab: u16,
        /// The sum of the weights on it.
        load: u64,
    },
    /// The largest size holds the lowest slab that isn't legal, but its colours are too many.
    Colourful {
        /// Its number, from 0.
        slab: u16,
        /// How many colours it has.
        colours: u16,
    },
}
