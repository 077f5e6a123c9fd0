//! A checker of refutation logs. It has its own rank, tree, live keys and knapsack, and shares
//! with the search nothing but the definitions that a log is judged by.
//!
//! From the top: `check` passes over the records of a log with an `agenda` of the paths that are
//! still to come; `sound` asks whether one record holds up, with `priced` and `dominated`. What
//! they ask of a path stands in `grouped_path`, over `groups`, `live`, `keys` and `tree`. `rules`
//! is what all of it is judged by, made `from_instance` once.
//!
//! Arguments stand in one order: the allocator; what is changed; the rules, or the log; the path or
//! its groups; what its record says; a place or a number; the loss.
#![tactic(auto)]

mod agenda;
mod check;
mod dominated;
mod from_instance;
mod grouped_path;
mod groups;
mod keys;
mod live;
mod priced;
mod rules;
mod sound;
mod tree;
mod verdict;

pub use check::check_log;
pub use verdict::LogVerdict;
