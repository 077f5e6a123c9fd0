//! Tests of the whole program that need its inside: sources and sinks that fail, and such as never
//! do, and grids of small instances against a plain reading. Rows of words, input, output and
//! status stand in rows/.
#![tactic(auto)]

#[cfg(test)]
mod faults;
#[cfg(test)]
mod grid;
#[cfg(test)]
mod kept;
#[cfg(test)]
mod least;
#[cfg(test)]
mod small_run;
#[cfg(test)]
mod steady;
#[cfg(test)]
mod threads;
