/// Whether moves closed all pairs of a plan.
#[derive(Clone, Copy, Debug, PartialEq, Eq)]
pub enum Closed {
    /// No legal plan of the orders of one or two slabs, on at most two slabs, loses less.
    Yes,
    /// The moves were spent first.
    Spent,
}
