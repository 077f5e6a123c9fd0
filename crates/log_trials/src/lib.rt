//! Trials of the log checker, which have no part in the product: verdicts for losses that no plan
//! has. The whole program asks for the loss of a plan alone; all other verdicts are rows.
#![tactic(auto)]

#[cfg(test)]
mod trials;
