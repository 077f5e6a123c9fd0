use mill_model::Path;

/// What is first wrong with a log, by rising path, or that it refutes the loss.
#[derive(Debug, Drop)]
pub enum LogVerdict {
    Refutes,
    /// The path has no record, and is the empty one or a child of a path that is split.
    Missing { path: Path },
    /// The path has a record, and is neither.
    Stray { path: Path },
    /// The record of the path is not sound, or names a path that is not closed by itself.
    Unsound { path: Path },
}
