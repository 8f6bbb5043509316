//! Tokens of pages.
ghost use Rattle.std.specs.Prelude.{◌≡◌, ◌++◌, ◌<◌, ◌^◌, ℕ, List, Some, IfOk, option_map, string_bytes};
ghost use Rattle.std.specs.Fmt.{decimal};
ghost use Rattle.cedar_endpoints.specs.Tokens.{token_text, next_text, IsPlace};

use std::alloc::{AllocError, Global};

/// The token of the page that begins behind so many candidates; none is empty. Refuses only if out of memory.
pub(crate) fn next_text(
    alloc: Global,
    version: &str,
    next: Option<usize>,
) -> Result<String, AllocError>
    ensures { IfOk result (λ s. string_bytes s ≡ next_text version.now next) }
{
    match next {
        Some(place) => token_text(alloc, version, place),
        None => Ok(String::new(alloc)),
    }
}

fn token_text(alloc: Global, version: &str, place: usize) -> Result<String, AllocError>
    ensures { IfOk result (λ s. string_bytes s ≡ token_text version.now place) }
{
    let sign = "-";
    format!(in alloc; "{version}{sign}{place}")
}

/// Behind how many candidates the page of this token begins, of so many; `None` for what is no token of this version.
/// Refuses only if out of memory.
pub(crate) fn place_of(
    alloc: Global,
    version: &str,
    size: usize,
    token: &str,
) -> Result<Option<usize>, AllocError>
    ensures { IfOk result (IsPlace version.now size token.now) }
{
    match number_behind(version, token) {
        Some(place) => place_if(alloc, version, size, token, place),
        None => Ok(None),
    }
}

// The number, if it is within the size, and the token is the one of it.
fn place_if(
    alloc: Global,
    version: &str,
    size: usize,
    token: &str,
    place: usize,
) -> Result<Option<usize>, AllocError>
    requires { (n : ℕ) → n < 2 ^ 64 → token.now ≡ token_text version.now n → Some place ≡ Some n }
    ensures { IfOk result (IsPlace version.now size token.now) }
{
    let text = token_text(alloc, version, place)?;
    Ok(if place < size && text.as_str() == token {
        Some(place)
    } else {
        None
    })
}

// The number of the token, if it is one of this version.
fn number_behind(version: &str, token: &str) -> Option<usize>
    ensures { (n : ℕ) → n < 2 ^ 64 → token.now ≡ token_text version.now n → result ≡ Some n }
{
    match behind(version, token) {
        Some(rest) => match behind("-", rest) {
            Some(number) => number_in(number),
            None => None,
        },
        None => None,
    }
}

// What stands behind this front.
fn behind<'t>(front: &str, token: &'t str) -> Option<&'t str>
    ensures { (rest : List ℕ) → token.now ≡ front.now ++ rest → option_map (λ t. t.now) result ≡ Some rest }
{
    token.strip_prefix(front)
}

fn number_in(text: &str) -> Option<usize>
    ensures { (n : ℕ) → n < 2 ^ 64 → text.now ≡ decimal n → result ≡ Some n }
{
    text.parse::<usize>().ok()
}
