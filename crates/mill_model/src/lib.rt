//! The steel mill slab design problem: the types that every crate speaks in, and the definitions
//! by which instances, plans, paths and logs are judged.
#![tactic(auto)]

mod charges;
mod closing;
mod instance;
mod limits;
mod memory;
mod order;
mod path;
mod plan;
mod prices;
pub mod rows;
#[cfg(test)]
mod tests;
mod threads;

pub use charges::{Charges, MAX_CHARGE};
pub use closing::{Closing, Entry};
pub use instance::Instance;
pub use limits::{Draw, Limits, MAX_NODES, Standing};
pub use memory::OutOfMemory;
pub use order::{MAX_ORDERS, MAX_SIZES, Order};
pub use path::Path;
pub use plan::{Plan, Start};
pub use prices::{MAX_PRICE, Prices};
