//! Trials of least slacks, of prices and of what they are worth: numbers by hand, nodes of small
//! trees beside minima over all sets, each public function once with memory enough. There is
//! nothing here but tests.
#![tactic(auto)]

#[cfg(test)]
mod all_sets;
#[cfg(test)]
mod knapsacks;
#[cfg(test)]
mod mill;
#[cfg(test)]
mod prices;
#[cfg(test)]
mod small_trees;
#[cfg(test)]
mod tables;
