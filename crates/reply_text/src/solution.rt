use answer_text::Answer;
use refute_log::Run;

/// An answer to an instance, and the run behind it where that has left paths: it shows that the
/// budget was spent on the tree.
#[derive(Debug, Drop)]
pub struct Solution {
    pub answer: Answer,
    pub run: Option<Run>,
}
