use mill_model::{Instance, Limits};

/// What is to be searched: the tree of an instance, by workers within limits, for an answer that
/// has a log with a best plan, or for one without.
#[derive(Debug, Drop)]
pub struct Search {
    pub instance: Instance,
    pub limits: Limits,
    pub with_log: bool,
}
