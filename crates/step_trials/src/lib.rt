//! Trials of a worker's step: each row of its table over a hand whose answers the trial sets, whole
//! runs by hand, and live keys, stores and pieces beside plain readings. There is nothing here but
//! tests.
#![tactic(auto)]

#[cfg(test)]
mod closings;
#[cfg(test)]
mod hand;
#[cfg(test)]
mod keys;
#[cfg(test)]
mod mill;
#[cfg(test)]
mod phases;
#[cfg(test)]
mod pieces;
#[cfg(test)]
mod readings;
#[cfg(test)]
mod runs;
#[cfg(test)]
mod steps;
#[cfg(test)]
mod stores;
