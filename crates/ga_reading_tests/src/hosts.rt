use ga_cases::hold;
use ga_hosts::{Address, Range, Ranges, address_of};
use std::alloc::Global;
use std::test::Fail;

/// Texts, and the addresses that they spell: the 8 hexadecimal digits of an IPv4 address, the 32 of an IPv6 address, or none.
const ADDRESSES: &str = "\
## IPv4, with addresses that RFC 5737 and RFC 4291 use in examples
0.0.0.0 => 00000000
1.2.3.4 => 01020304
10.0.0.1 => 0a000001
127.0.0.1 => 7f000001
192.0.2.1 => c0000201
198.51.100.7 => c6336407
203.0.113.250 => cb0071fa
129.144.52.38 => 81903426
13.1.68.3 => 0d014403
255.255.255.255 => ffffffff
## the examples of RFC 4291, section 2.2
ABCD:EF01:2345:6789:ABCD:EF01:2345:6789 => abcdef0123456789abcdef0123456789
2001:DB8:0:0:8:800:200C:417A => 20010db80000000000080800200c417a
2001:DB8::8:800:200C:417A => 20010db80000000000080800200c417a
FF01:0:0:0:0:0:0:101 => ff010000000000000000000000000101
FF01::101 => ff010000000000000000000000000101
0:0:0:0:0:0:0:1 => 00000000000000000000000000000001
::1 => 00000000000000000000000000000001
0:0:0:0:0:0:0:0 => 00000000000000000000000000000000
:: => 00000000000000000000000000000000
0:0:0:0:0:0:13.1.68.3 => 0000000000000000000000000d014403
::13.1.68.3 => 0000000000000000000000000d014403
0:0:0:0:0:FFFF:129.144.52.38 => 00000000000000000000ffff81903426
::FFFF:129.144.52.38 => 00000000000000000000ffff81903426
## the examples of RFC 5952, sections 2.1, 2.2 and 5
2001:db8:0:0:1:0:0:1 => 20010db8000000000001000000000001
2001:0db8:0:0:1:0:0:1 => 20010db8000000000001000000000001
2001:db8::1:0:0:1 => 20010db8000000000001000000000001
2001:db8::0:1:0:0:1 => 20010db8000000000001000000000001
2001:db8:0000:0:1::1 => 20010db8000000000001000000000001
2001:DB8:0:0:1::1 => 20010db8000000000001000000000001
2001:db8:aaaa:bbbb:cccc:dddd::1 => 20010db8aaaabbbbccccdddd00000001
2001:db8:aaaa:bbbb:cccc:dddd:0:1 => 20010db8aaaabbbbccccdddd00000001
2001:db8:0:0:0::1 => 20010db8000000000000000000000001
2001:db8::1 => 20010db8000000000000000000000001
2001:db8:aaaa:bbbb:cccc:dddd:eeee:AaAa => 20010db8aaaabbbbccccddddeeeeaaaa
::ffff:192.0.2.1 => 00000000000000000000ffffc0000201
0:0:0:0:0:ffff:192.0.2.1 => 00000000000000000000ffffc0000201
## two colons at an end and for one group alone, and an IPv4 text after six groups or five
1:2:3:4:5:6:7:: => 00010002000300040005000600070000
::2:3:4:5:6:7:8 => 00000002000300040005000600070008
1:2:3::5:6:7:8 => 00010002000300000005000600070008
1:2:3:4:5:6:1.2.3.4 => 00010002000300040005000601020304
1:2:3:4:5::1.2.3.4 => 00010002000300040005000001020304
ffff:: => ffff0000000000000000000000000000
## what looks like IPv4
 => none
256.1.1.1 => none
01.2.3.4 => none
00.0.0.0 => none
1.2.3 => none
1.2.3. => none
1..2.3 => none
 1.2.3.4 => none
0x7f.0.0.1 => none
1.2.3.4:80 => none
## what looks like IPv6, zones of RFC 4007 and RFC 6874, and brackets
1::2::3 => none
1:2:3:4:5:6:7:8:: => none
::1:2:3:4:5:6:7:8 => none
1:2:3:4:5:6:7 => none
: => none
1:2:3:4:5:6:7: => none
12345:: => none
2001:db8::/32 => none
1.2.3.4:: => none
::1.2.3.4:5 => none
1:2:3:4:5:6:7:1.2.3.4 => none
1:2:3:4:5:6::1.2.3.4 => none
::1.2.3 => none
::01.2.3.4 => none
fe80::1%eth0 => none
fe80::a%25en1 => none
[::1] => none
";

/// The digits of an address.
fn digits(alloc: Global, address: Address) -> Result<String, Fail> {
    Ok(match address {
        Address::V4(number) => format!(in alloc; "{number:08x}")?,
        Address::V6(number) => format!(in alloc; "{number:032x}")?,
    })
}

/// The address that a text spells.
fn address_said(alloc: Global, text: &str) -> Result<String, Fail> {
    match address_of(text.as_bytes()) {
        Some(address) => digits(alloc, address),
        None => Ok(String::from_str(alloc, "none")?),
    }
}

#[test]
fn texts_spell_addresses(rt: HostRuntime) -> Result<(), Fail> {
    hold(rt.alloc(), ADDRESSES, address_said)
}

/// Texts, and the ranges that they spell by their ends, or what their fault says: the place from which on an address is missing.
const RANGES: &str = "\
## an address alone, and two
192.0.2.1 => c0000201-c0000201
192.0.2.1-192.0.2.9 => c0000201-c0000209
192.0.2.9-192.0.2.9 => c0000209-c0000209
::-::ffff => 00000000000000000000000000000000-0000000000000000000000000000ffff
## no address at the start
 => byte 0: bad range
-192.0.2.9 => byte 0: bad range
192.0.2.1 -192.0.2.9 => byte 0: bad range
192.0.2.0/24 => byte 0: bad range
## none after the dash, or one of another family
1.2.3.4- => byte 8: bad range
1.2.3.4-5.6.7.8-9.9.9.9 => byte 8: bad range
1.2.3.4-::ffff:5.6.7.8 => byte 8: bad range
::1-1.2.3.4 => byte 4: bad range
## the lower end last
192.0.2.9-192.0.2.1 => byte 10: bad range
";

/// The range that a text spells.
fn range_said(alloc: Global, text: &str) -> Result<String, Fail> {
    match Range::read(text.as_bytes()) {
        Ok(range) => {
            let low = digits(alloc, range.low)?;
            let high = digits(alloc, range.high)?;
            Ok(format!(in alloc; "{low}-{high}")?)
        }
        Err(bad) => Ok(format!(in alloc; "{bad}")?),
    }
}

#[test]
fn texts_spell_ranges(rt: HostRuntime) -> Result<(), Fail> {
    hold(rt.alloc(), RANGES, range_said)
}

/// Hosts, and whether one of two ranges, one of each family, has them.
const HOSTS: &str = "\
## the ends of a range, and their neighbours
192.0.2.0 => false
192.0.2.1 => true
192.0.2.9 => true
192.0.2.10 => false
2001:db8:: => true
2001:db8::0.0.0.255 => true
2001:db8::100 => false
## an IPv4 address as IPv6 text
::ffff:192.0.2.1 => false
## what is no address
192.0.2.01 => false
localhost => false
 => false
";

/// Whether the two ranges have a host.
fn is_held(alloc: Global, host: &str) -> Result<String, Fail> {
    let mut ranges = Ranges::new(alloc);
    ranges.push(Range::read(b"192.0.2.1-192.0.2.9")?)?;
    ranges.push(Range::read(b"2001:db8::-2001:db8::ff")?)?;
    Ok(format!(in alloc; "{}", ranges.holds(host.as_bytes()))?)
}

#[test]
fn ranges_have_hosts(rt: HostRuntime) -> Result<(), Fail> {
    hold(rt.alloc(), HOSTS, is_held)
}
