//! What the definitions of mill_model imply. Each law stands on a function of its own, which does
//! nothing; the module `rows` has the definitions computed at small instances.
#![tactic(auto)]

mod logs;
mod plans;
mod prices;
pub mod rows;
mod runs;
mod trees;

pub use logs::{lesser_loss_is_refuted, recorded_once, refuted_loss_bounds};
pub use plans::{canonical_form, each_alone, plan_in_rank, rank_of_orders};
pub use prices::{ascent_prices, prices_stay_within, swept_prices, weak_duality};
pub use runs::{no_path_twice, pieces_refute, run_fits_the_tree};
pub use trees::{each_leaf_is_a_plan, each_plan_has_a_leaf, tree_has_at_most};
