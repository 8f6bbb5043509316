//! The octets of an address.
ghost use Rattle.std.specs.Prelude.{◌≡◌, Some, None};
ghost use Rattle.cedar_ip.specs.Texts.{ipv4_octets_of, ipv6_octets_of};

use std::net::{Ipv4Addr, Ipv6Addr};

// The octets of the IPv4 address that the bytes write.
#[tactic(auto, using(crate::proofs::AddressTexts::ipv4_reads))]
pub(crate) fn ipv4_octets(text: &[u8]) -> Option<[u8; 4]>
    ensures { result ≡ ipv4_octets_of text.now }
{
    match Ipv4Addr::parse_ascii(text) {
        Ok(address) => Some(address.octets()),
        Err(_) => None,
    }
}

// The octets of the IPv6 address that the bytes write.
#[tactic(auto, using(crate::proofs::AddressTexts::ipv6_reads))]
pub(crate) fn ipv6_octets(text: &[u8]) -> Option<[u8; 16]>
    ensures { result ≡ ipv6_octets_of text.now }
{
    match Ipv6Addr::parse_ascii(text) {
        Ok(address) => Some(address.octets()),
        Err(_) => None,
    }
}
