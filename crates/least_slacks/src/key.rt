/// A group as the later orders see it: those of its colours that some later order has, rising, with
/// `NO_COLOUR` behind; how many colours it has; and its load.
#[derive(Clone, Copy, Debug, Drop, PartialEq, Eq, PartialOrd, Ord)]
pub struct Key {
    pub coming: [u16; 8],
    pub colours: usize,
    pub load: u64,
}

/// Stands behind the last colour of a key. No order has it.
pub const NO_COLOUR: u16 = 65535;
