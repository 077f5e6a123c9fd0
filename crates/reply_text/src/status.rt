//! The statuses that the program ends with, but for the one where the system gives no words.

/// A plan was written that loses least.
pub const OPTIMAL: u8 = 0;

/// An answer was judged, and is as it says.
pub const ACCEPTED: u8 = 0;

/// An order was named that no slab holds, so that there is no legal plan.
pub const INFEASIBLE: u8 = 1;

/// The words ask for nothing that the program does.
pub const WRONG_WORDS: u8 = 2;

/// The input was refused.
pub const REFUSED: u8 = 3;

/// A plan was written, and the budget of its search was spent with a path left.
pub const FEASIBLE: u8 = 4;

/// A read failed.
pub const READ_FAULT: u8 = 5;

/// A write failed.
pub const WRITE_FAULT: u8 = 6;

/// Memory was wanting.
pub const OUT_OF_MEMORY: u8 = 7;

/// An answer was judged, and isn't as it says.
pub const REJECTED: u8 = 8;
