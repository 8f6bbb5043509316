//! What the crates above share with this one, and their users need not know.
pub use crate::expr::same_call;
pub use crate::texts::expressions::show_call;
