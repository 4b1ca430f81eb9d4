// The UDP checksum over IPv6 (RFC 8200, 8.1): the one that is sent, and whether one that arrived is wrong.
#![tactic(auto)]

ghost use Rattle.std.specs.Prelude.{◌≡◌, ◌++◌, ◌+◌, ◌-◌, ◌*◌, ◌%◌, ◌≤◌, ◌<◌, length, drop};
ghost use Rattle.rules.specs.Octets.{Octets, window};
ghost use Rattle.rules.specs.Checksum.{word_sum};
ghost use Rattle.rules.specs.Ipv6.{source, destination};
ghost use Rattle.rules.specs.UdpChecksum.{udp_checksum6, bad_checksum};

// Where the two addresses begin in an IPv6 header, and where it ends.
const ADDRESSES_AT: usize = 8;

const HEADER: usize = 40;

// Where the checksum stands in a datagram.
const CHECKSUM_AT: usize = 6;

// UDP's number in the pseudo-header.
const UDP: u64 = 17;

// What is sent for words whose sum this is: a computed 0 as FFFF.
fn complement(total: u64) -> u16
    ensures { result ≡ 65535 - total % 65535 }
{
    (65535 - total % 65535) as u16
}

// The checksum of a datagram between two addresses: its first 24 octets, in which it is 0, by value, and the rest of it.
pub fn checksum(from: [u8; 16], to: [u8; 16], head: [u8; 24], rest: &[u8]) -> u16
    requires { 24 + length rest.now < 65536 }
    ensures { result ≡ udp_checksum6 from to (head ++ rest.now) }
{
    complement(
        sum::unreduced_address(from)
            + sum::unreduced_address(to)
            + (24 + rest.len() as u64)
            + UDP
            + sum::unreduced(&head)
            + sum::unreduced(rest),
    )
}

// The same of a whole datagram.
pub fn checksum_of(from: [u8; 16], to: [u8; 16], datagram: &[u8]) -> u16
    requires { length datagram.now < 65536 }
    ensures { result ≡ udp_checksum6 from to datagram.now }
{
    complement(
        sum::unreduced_address(from)
            + sum::unreduced_address(to)
            + datagram.len() as u64
            + UDP
            + sum::unreduced(datagram),
    )
}

// Row 18, of the datagram that begins at octet `at` of an IPv6 packet and has a UDP header: its checksum is wrong, or zero and not allowed.
pub fn bad_checksum(packet: &[u8], at: usize, allowed: bool) -> bool
    requires { (40 ≤ at) × (at + 8 ≤ length packet.now) × (length packet.now < 65576) }
    ensures { result ≡ bad_checksum allowed (source packet.now) (destination packet.now)
        (drop at packet.now) }
{
    if octets::join16(packet[at + CHECKSUM_AT], packet[at + CHECKSUM_AT + 1]) == 0 {
        return !allowed;
    }
    let datagram = &packet[at..];
    let addresses = sum::unreduced(&packet[ADDRESSES_AT..HEADER]);
    let total = addresses + datagram.len() as u64 + UDP + sum::unreduced(datagram);
    total % 65535 != 0
}
