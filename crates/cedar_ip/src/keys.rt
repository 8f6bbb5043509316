//! What ranges are asked, by their keys.
ghost use Rattle.std.specs.Prelude.{◌≡◌, ◌-◌, ◌/◌, ◌^◌, length, drop, true};
ghost use Rattle.cedar_ip.specs.Ranges.{ipv4, ipv6, number_of};
ghost use Rattle.cedar_ip.specs.Keys.{is_key_of, lies_in, is_in_range, is_loopback, is_multicast, first_bits, prefix_in};

/// Whether the key is that of a range of IPv4 addresses.
pub fn is_ipv4(key: &[u8]) -> bool
    ensures { result ≡ is_key_of ipv4 key.now }
{
    match key {
        [] => false,
        [family, ..] => *family == 4 && key.len() == 6,
    }
}

/// Whether the key is that of a range of IPv6 addresses.
pub fn is_ipv6(key: &[u8]) -> bool
    ensures { result ≡ is_key_of ipv6 key.now }
{
    match key {
        [] => false,
        [family, ..] => *family == 6 && key.len() == 18,
    }
}

/// Whether each address of the range is a loopback address: one of 127.0.0.0/8, or ::1.
pub fn is_loopback(key: &[u8]) -> bool
    ensures { result ≡ is_loopback key.now }
{
    is_in_range(key, &[4, 8, 127, 0, 0, 0])
        || is_in_range(
            key,
            &[6, 128, 0, 0, 0, 0, 0, 0, 0, 0, 0, 0, 0, 0, 0, 0, 0, 1],
        )
}

/// Whether each address of the range is a multicast address: one of 224.0.0.0/4 or ff00::/8.
pub fn is_multicast(key: &[u8]) -> bool
    ensures { result ≡ is_multicast key.now }
{
    is_in_range(key, &[4, 4, 224, 0, 0, 0])
        || is_in_range(
            key,
            &[6, 8, 255, 0, 0, 0, 0, 0, 0, 0, 0, 0, 0, 0, 0, 0, 0, 0],
        )
}

/// Whether each address of the first range is one of the second, by the keys of both.
pub fn is_in_range(key: &[u8], other: &[u8]) -> bool
    ensures { result ≡ is_in_range key.now other.now }
{
    lies_in_ipv4(key, other) || lies_in_ipv6(key, other)
}

fn lies_in_ipv4(key: &[u8], other: &[u8]) -> bool
    ensures { result ≡ lies_in ipv4 key.now other.now }
{
    if !is_ipv4(key) || !is_ipv4(other) {
        return false;
    }
    let prefix = prefix_in(other);
    let dropped = 32u8.saturating_sub(prefix);
    prefix <= prefix_in(key)
        && first_bits(ipv4_number(key), dropped) == first_bits(ipv4_number(other), dropped)
}

fn lies_in_ipv6(key: &[u8], other: &[u8]) -> bool
    ensures { result ≡ lies_in ipv6 key.now other.now }
{
    if !is_ipv6(key) || !is_ipv6(other) {
        return false;
    }
    let prefix = prefix_in(other);
    let dropped = 128u8.saturating_sub(prefix);
    prefix <= prefix_in(key)
        && first_bits(ipv6_number(key), dropped) == first_bits(ipv6_number(other), dropped)
}

// The length of the prefix that stands in a key.
fn prefix_in(key: &[u8]) -> u8
    ensures { result ≡ prefix_in key.now }
{
    match key {
        [_, prefix, ..] => *prefix,
        [_] => 0,
        [] => 0,
    }
}

// The address that stands in the key of a range of IPv4 addresses, as a number.
fn ipv4_number(key: &[u8]) -> u128
    requires { is_key_of ipv4 key.now ≡ true }
    ensures { result ≡ number_of ipv4 (drop 2 key.now) }
{
    match <[u8; 4]>::try_from(&key[2..]) {
        Ok(octets) => u128::from(u32::from_be_bytes(octets)),
        Err(_) => 0,
    }
}

// The same of IPv6 addresses.
fn ipv6_number(key: &[u8]) -> u128
    requires { is_key_of ipv6 key.now ≡ true }
    ensures { result ≡ number_of ipv6 (drop 2 key.now) }
{
    match <[u8; 16]>::try_from(&key[2..]) {
        Ok(octets) => u128::from_be_bytes(octets),
        Err(_) => 0,
    }
}

// The bits of an address without the last ones.
#[tactic(auto, using(crate::proofs::Shares::none_left))]
fn first_bits(address: u128, dropped: u8) -> u128
    ensures { result ≡ address / 2 ^ dropped }
{
    match address.checked_shr(u32::from(dropped)) {
        Some(bits) => bits,
        None => 0,
    }
}
