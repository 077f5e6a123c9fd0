/// What a scan of pairs comes to.
#[derive(Clone, Copy, Debug)]
pub enum Scan {
    /// All are closed.
    Done,
    /// The tries were spent before the last pair.
    Spent,
    /// A pair was not closed, and its orders lie anew.
    Changed,
}
