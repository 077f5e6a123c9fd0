/// The greatest number of orders of an instance.
pub const MAX_ORDERS: usize = 1024;

/// The greatest number of sizes of an instance.
pub const MAX_SIZES: usize = 1024;

/// One order: a weight and a colour. Both are numbers of the customer's, from 1.
#[derive(Clone, Copy, Debug, PartialEq, Eq)]
pub struct Order {
    pub weight: u32,
    pub colour: u16,
}
