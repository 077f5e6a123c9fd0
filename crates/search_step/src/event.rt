use mill_model::{Draw, Path, Standing};

/// A call on a hand, with its argument and its answer. It stands in contracts alone: no value of it
/// is made.
pub enum Event {
    Took(Option<Path>),
    /// The victim's number, and what was stolen.
    Stole(u16, Option<Path>),
    Pushed(Path),
    /// A push that gave its path back.
    Refused(Path),
    Drew(Draw),
    Looked(u64),
    /// The loss that was published, and the loss before.
    Published(u64, u64),
    Stopping,
    Stood(Standing),
}
