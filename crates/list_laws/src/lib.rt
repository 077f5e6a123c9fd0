//! Lists, sets as marks, sums and multisets: the definitions that every other crate speaks in, and
//! the lemmas on them. There is no code here but the module `rows`, which has the definitions
//! computed at small lists.
#![tactic(auto)]

pub mod rows;
