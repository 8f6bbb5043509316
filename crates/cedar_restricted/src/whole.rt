//! What has parts that are evaluated in order: a set, a record or a call.
use cedar_names::Name;
use std::rc::RcStr;

/// What parts make together.
#[derive(Drop)]
pub enum Whole {
    /// A set.
    Set,
    /// A record, under these keys.
    Record(Vec<RcStr>),
    /// A call of this function.
    Call(Name),
}
