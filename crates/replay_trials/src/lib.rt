//! Trials of replays: what they leave beside a plain reading of the machine, every log beside the
//! checker and a search through all plans, and small budgets; and of workers that run in threads.
//! There is nothing here but tests.
#![tactic(auto)]

#[cfg(test)]
mod finishes;
#[cfg(test)]
mod grid;
#[cfg(test)]
mod least;
#[cfg(test)]
mod machine;
#[cfg(test)]
mod plain_worker;
#[cfg(test)]
mod replays;
#[cfg(test)]
mod running;
#[cfg(test)]
mod schedules;
#[cfg(test)]
mod setting;
