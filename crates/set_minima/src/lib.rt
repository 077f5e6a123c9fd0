//! What the best prices of sets of orders are, by the load and the colours of the sets: definitions
//! for the tables of a knapsack, and the lemmas by which one order or one colour more changes them.
//! There is no code here; each knapsack has its own.
#![tactic(auto)]
