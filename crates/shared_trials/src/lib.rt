//! Trials of what workers share, in running threads: what no clause can say of threads, and that
//! what the clauses say holds there too. There is nothing here but tests.
#![tactic(auto)]

#[cfg(test)]
mod deques;
#[cfg(test)]
mod ends;
#[cfg(test)]
mod paths;
#[cfg(test)]
mod together;
#[cfg(test)]
mod words;
