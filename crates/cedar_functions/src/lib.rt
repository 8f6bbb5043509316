//! Which functions are known where a text is read.
//!
//! [`Functions`] says of each name how its function is called and with how many arguments: those of extensions
//! ([`Functions::of`]), or any ([`Functions::any`]). [`Functions::look_up`] answers what is known of a name, and
//! [`Functions::nearest`] which name may have been meant. The methods that are operators belong to the language and
//! are no functions; `nearest` names them too.
//!
//! - `functions`: `Functions`. `distance`: how far one name is from another, and which of two is nearer.
//!
//! The promise, in clauses without a name: `of` knows exactly the functions of the extensions, `any` all (`knowledge`
//! in `specs/Functions.antt`); `look_up` answers what is known (`known_of`); `nearest` is the nearest name of that
//! style by the textbook's distance, at most a third of the bytes away (`IsNearestName`, over `specs/Distance.antt`).
#![tactic(auto)]

mod distance;
mod functions;

pub use functions::{Functions, Known};
