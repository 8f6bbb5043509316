//! Lines of an explanation.
use cedar_layers::expressions::Loc;

/// What a line is of.
#[derive(Clone, Copy, Debug, PartialEq, Eq)]
pub enum LineKind {
    /// Of the lines below it.
    Heading,
    /// Of a policy.
    Policy,
    /// Of a part of the condition of the policy above it.
    Part,
}

/// A line of an explanation.
#[derive(Debug, Drop)]
pub struct Line {
    /// What it is of.
    pub kind: LineKind,
    /// Where this stands in the text of the policies, if that is known.
    pub place: Option<Loc>,
    /// What it says, without the end of the line. Names may hold any character.
    pub text: String,
}
