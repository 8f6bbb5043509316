//! Answers.
use cedar_decisions::Decision;

/// What policies answer to a request: the decision, the names of the policies that determined it, and the text of each
/// error. The order in which they stand says nothing.
#[derive(Debug, Drop)]
pub struct Answer {
    pub decision: Decision,
    pub reasons: Vec<String>,
    pub errors: Vec<String>,
}
