ghost use Rattle.std.specs.Prelude.{◌≡◌, ◌↔◌, Some, IsTrue, IsNone};
ghost use Rattle.ga_hosts.specs.Addresses.{Spells, IsAddress, IsAtMost};
ghost use Rattle.ga_hosts.specs.declared.address.Address.{Address as AddressSpec};
ghost use Rattle.ga_hosts.specs.Steps.{numbered};

use std::net::IpAddr;

/// An address as the number that its bits make, the first part of its text the highest. An address of one family is
/// never one of the other, so that `::ffff:192.0.2.1` is `V6`; there is no order between the two.
#[derive(Clone, Copy, Debug, PartialEq, Eq)]
pub enum Address {
    /// An IPv4 address, 32 bits.
    V4(u32),
    /// An IPv6 address, 128 bits.
    V6(u128),
}

impl Address {
    /// Whether both are of one family and the number of `self` isn't above that of `other`.
    pub(crate) fn is_at_most(self, other: Address) -> bool
        ensures { IsTrue result ↔ IsAtMost self other }
    {
        match (self, other) {
            (Address::V4(low), Address::V4(high)) => low <= high,
            (Address::V6(low), Address::V6(high)) => low <= high,
            _ => false,
        }
    }
}

impl From<IpAddr> for Address {
    ghost from_gives = { λ ip address. address ≡ numbered ip };

    fn from(ip: IpAddr) -> Address {
        match ip {
            IpAddr::V4(parts) => Address::V4(parts.to_bits()),
            IpAddr::V6(groups) => Address::V6(groups.to_bits()),
        }
    }
}

/// The address that a text spells, and `None` where it spells none. An IPv4 text is four decimal parts from 0 to 255
/// joined by dots, without leading zeros. An IPv6 text is that of RFC 4291, section 2.2: eight groups of one to four
/// hexadecimal digits, `::` once for one or more groups of zero, and perhaps an IPv4 text for the last two groups. A
/// zone (`%eth0`) is no part of an address, nor are brackets, a port or blanks.
pub fn address_of(text: &[u8]) -> Option<Address>
    ensures found { (address : AddressSpec) → (result ≡ Some address) ↔ Spells text.now address }
    ensures none { IsNone result ↔ ((address : AddressSpec) → ¬ (Spells text.now address)) }
{
    IpAddr::parse_ascii(text).ok().map(Address::from)
}

/// Whether a text spells an address: whether `address_of` gives one.
pub fn is_address(text: &[u8]) -> bool
    ensures { IsTrue result ↔ IsAddress text.now }
{
    address_of(text).is_some()
}
