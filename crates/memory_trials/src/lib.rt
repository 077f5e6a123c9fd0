//! Trials of refused memory: whole runs of a worker, by hand, in which a step that wants memory is
//! tried again. There is nothing here but tests. Where no memory is refused, no step is tried
//! again; `rt try --test --fail-alloc N` refuses the Nth growth.
#![tactic(auto)]

#[cfg(test)]
mod hand;
#[cfg(test)]
mod mills;
#[cfg(test)]
mod runs;
