//! Expressions, policies and sets of policies in Cedar's own syntax. The promise is the exact bytes (`written` in
//! `specs/Texts.antt`, `policy_text` and `policies_text` in `specs/Policies.antt`, in clauses without a name). That
//! they read back as an equal expression or policy is tested, not proved; `Display` of an expression does not always:
//! it writes `-(1)` as `-1`, and a path of `has` in quotes.
//!
//! - `expressions` (`writing`), `levels`: a part is in brackets where its level is none that its place takes, and
//!   nowhere else: `(a + b) * c`, `a - (b - c)`, `!(-1)`, `-(1)`, `(-1).a`. One sign is before a part, and a further
//!   one in brackets: `!(!a)`.
//! - `names`, `escapes`: an attribute and a key are bare where they are one word that is not reserved, and else in
//!   quotes: `a.b`, `a["b c"]`, `a["if"]`. In quotes `"` and `\`, and in a pattern a `*` that is itself, have a `\`
//!   before them; line ends, returns, tabs and zeros are `\n`, `\r`, `\t` and `\0`, other control characters of ASCII
//!   as `\u{1b}`. `methods`: which functions are called as `a.isInRange(b)`; each other one as `ip("::1")`.
//! - `kinds`: the four kinds that a scope may have.
//! - `policies`, `scopes`: constraints are in the scope where they have a form that a scope has: `v == E`, `v in E`,
//!   `action in [E, ..]`, `v is T` and `v is T in E`, with an entity, a linked slot or the variable's own slot for
//!   `E`. From the first one on that has no such form, each is a clause `when { .. }`, in its order; the policy's own
//!   clause is the last. What is `true` is not written, and a slot that is linked to an entity is written as that
//!   entity.
//!
//! What has no syntax does not read back as it was: a name of a type, a function or an annotation that is no
//! identifier or path of them (it may even read as something else), a path of `has` with an attribute that is no
//! identifier or with one alone, an unknown, which reads as the call of a function, and a slot that is not linked and
//! is in no scope. A set of policies says nothing of their ids.
#![tactic(auto)]

mod escapes;
mod expressions;
mod kinds;
mod levels;
mod methods;
mod names;
mod policies;
mod scopes;

pub use expressions::to_cedar;
pub use policies::{effect_text, policies_to_cedar, policy_to_cedar};
