use mill_model::Plan;
use refute_log::Log;

/// What a solver says of an instance.
#[derive(Debug, Drop)]
pub enum Answer {
    /// No legal plan loses less than this one, and the log may say why.
    Optimal {
        loss: u64,
        plan: Plan,
        refutation: Option<Log>,
    },
    /// The best plan that was found until this many paths were closed.
    Feasible {
        loss: u64,
        plan: Plan,
        spent: u64,
    },
    /// The order is heavier than the largest slab. Orders are counted from 0.
    Infeasible {
        order: u16,
    },
}
