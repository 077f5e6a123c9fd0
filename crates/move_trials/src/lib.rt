//! Trials of moves: moves and walks by hand, every pair that moves leave beside a search through
//! all splits, and the split of two slabs beside another. There is nothing here but tests.
#![tactic(auto)]

#[cfg(test)]
mod grid;
#[cfg(test)]
mod pairs;
#[cfg(test)]
mod splits;
#[cfg(test)]
mod starts;
#[cfg(test)]
mod walks;
