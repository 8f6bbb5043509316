//! What a text writes.
ghost use Rattle.std.specs.Prelude.{◌≡◌, ◌∷◌, ◌==◌, option_map, option_copied};
ghost use Rattle.std.specs.List.{list_any};
ghost use Rattle.cedar_ip.specs.Ranges.{key_of_range};
ghost use Rattle.cedar_ip.specs.Texts.{is_refused, range_of_parts, ipv6_range_of};
ghost use Rattle.cedar_ip.specs.Keys.{key_of, bytes_of};

use crate::addresses::{ipv4_octets, ipv6_octets};
use crate::prefixes::prefix_behind;

/// The key of a range of addresses: its family, the length of its prefix, and the octets of the address that it is
/// written with.
#[derive(Clone, Copy)]
pub enum RangeKey {
    /// 4, the length of the prefix, and four octets.
    V4([u8; 6]),
    /// 6, the length of the prefix, and sixteen octets.
    V6([u8; 18]),
}

impl RangeKey {
    /// Its bytes.
    pub fn as_bytes(&self) -> &[u8]
        ensures { result.now ≡ bytes_of self.now }
    {
        match self {
            RangeKey::V4(bytes) => bytes.as_slice(),
            RangeKey::V6(bytes) => bytes.as_slice(),
        }
    }
}

/// The key of the range that the text writes: an IPv4 or IPv6 address, and perhaps a slash and the length of the
/// prefix, which else is all of the address. `None` of each other text, of one of more than 43 bytes, and of one with
/// both `:` and `.`. Two texts have the same key just where family, prefix and address are the same.
pub fn key(text: &str) -> Option<RangeKey>
    ensures { option_map bytes_of result ≡ key_of text.now }
{
    if is_refused(text.as_bytes()) {
        return None;
    }
    match text.split_once('/') {
        Some((address, prefix)) => key_of_parts(address.as_bytes(), Some(prefix)),
        None => key_of_parts(text.as_bytes(), None),
    }
}

// A text that is too long, or that has both `:` and `.`.
fn is_refused(text: &[u8]) -> bool
    ensures { result ≡ is_refused text.now }
{
    text.len() > 43 || (has(text, b':') && has(text, b'.'))
}

fn has(text: &[u8], wanted: u8) -> bool
    ensures { result ≡ list_any (λ c. c == wanted) text.now }
{
    text.iter().any(|byte| *byte == wanted)
}

// The key of an address with this text behind the slash, if there is one.
fn key_of_parts(address: &[u8], prefix: Option<&str>) -> Option<RangeKey>
    ensures { option_map bytes_of result
        ≡ option_map key_of_range (range_of_parts address.now (option_copied prefix.entry)) }
{
    match ipv4_octets(address) {
        Some(octets) => Some(ipv4_key(prefix_behind(prefix, 32)?, octets)),
        None => ipv6_key_of(address, prefix),
    }
}

fn ipv6_key_of(address: &[u8], prefix: Option<&str>) -> Option<RangeKey>
    ensures { option_map bytes_of result
        ≡ option_map key_of_range (ipv6_range_of address.now (option_copied prefix.entry)) }
{
    Some(ipv6_key(prefix_behind(prefix, 128)?, ipv6_octets(address)?))
}

fn ipv4_key(prefix: u8, octets: [u8; 4]) -> RangeKey
    ensures { bytes_of result ≡ 4 ∷ prefix ∷ octets }
{
    let [a, b, c, d] = octets;
    RangeKey::V4([4, prefix, a, b, c, d])
}

fn ipv6_key(prefix: u8, octets: [u8; 16]) -> RangeKey
    ensures { bytes_of result ≡ 6 ∷ prefix ∷ octets }
{
    let [a, b, c, d, e, f, g, h, i, j, k, l, m, n, o, p] = octets;
    RangeKey::V6([6, prefix, a, b, c, d, e, f, g, h, i, j, k, l, m, n, o, p])
}
