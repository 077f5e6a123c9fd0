//! Room in which a move gathers the orders of its pair, so that moves take no memory.
ghost use Rattle.std.specs.Prelude.{◌≡◌, length, IfOk};

use mill_model::{Order, OutOfMemory};
use std::alloc::Global;

/// Room for the orders of a pair of slabs: for their places among all, and for the orders
/// themselves.
#[derive(Debug, Drop)]
pub struct Room {
    pub places: Vec<u16>,
    pub items: Vec<Order>,
}

impl Room {
    /// Room for all of some orders.
    pub fn new(alloc: Global, orders: &[Order]) -> Result<Room, OutOfMemory>
        ensures places { IfOk result (λ room. length room.places.items ≡ length orders.now) }
        ensures items { IfOk result (λ room. length room.items.items ≡ length orders.now) }
    {
        Ok(Room {
            places: vec![in alloc; 0u16; orders.len()]?,
            items: orders.to_vec(alloc)?,
        })
    }
}
