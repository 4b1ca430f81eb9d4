// TEID and sequence number of a packet as it arrives, for the report of lost packets. Every test is one of the base's; no table is asked,
// and nothing is copied but the headers.
#![tactic(auto)]

ghost use Rattle.std.specs.Prelude.{◌≡◌, ◌/◌, ◌%◌, ◌<◌, eqb, drop, unwrap_or};
ghost use Rattle.sequence.specs.Sequence.{found, sequence6, sequence4};
ghost use Rattle.sequence.specs.Parts.{sequence_in};

// Where the sequence number stands in a datagram, its UDP header included (TS 29.281, 5.1).
const NUMBER_AT: usize = 16;

// Where the datagram of an IPv4 packet without options begins.
const IPV4_SIZE: usize = 20;

// Bit 48 of what is found: it is set, so that TEID 0 with number 0 is not 0.
const FOUND: u64 = 0x1000000000000;

// Both in one number.
fn pack(teid: u32, number: u16) -> u64
    ensures { result ≡ found teid number }
{
    FOUND + u64::from(teid) * 0x10000 + u64::from(number)
}

// The flag S.
fn is_numbered(g: rules::Datagram) -> bool
    ensures { result ≡ eqb (g.flags / 2 % 2) 1 }
{
    g.flags / 2 % 2 == 1
}

// Rows 8 to 11 and S of the datagram that begins at octet `at` of a packet.
fn numbered_at(packet: &[u8], at: usize, protocol: u8) -> Option<u64>
    requires { at < 65536 }
    ensures { unwrap_or result 0 ≡ sequence_in protocol (drop at packet.now) }
{
    let g = gtpu::datagram_at(packet, at);
    if gtpu::not_gtpu(protocol, g) {
        return None;
    }
    if gtpu::bad_udp(g) {
        return None;
    }
    if gtpu::bad_gtpu(g) {
        return None;
    }
    if gtpu::not_gpdu(g) {
        return None;
    }
    if !is_numbered(g) {
        return None;
    }
    Some(pack(
        u32::from_be_bytes(g.teid),
        octets::number_at(packet, at, NUMBER_AT),
    ))
}

fn numbered_ipv6(packet: &[u8]) -> Option<u64>
    ensures { unwrap_or result 0 ≡ sequence6 packet.now }
{
    let h = ip::header_of(octets::window::<48>(packet, 0), packet.len());
    if ip::is_malformed(h) {
        return None;
    }
    if ip::bad_chain(h) {
        return None;
    }
    if ip::segments_remain(h) {
        return None;
    }
    numbered_at(packet, h.upperAt as usize, h.upper)
}

fn numbered_ipv4(packet: &[u8]) -> Option<u64>
    ensures { unwrap_or result 0 ≡ sequence4 packet.now }
{
    let h = ip::header4_of(octets::window::<20>(packet, 0), packet.len());
    if ip::is_malformed4(h) {
        return None;
    }
    if ip::bad_header4(h) {
        return None;
    }
    numbered_at(packet, IPV4_SIZE, h.protocol)
}

// Of an IPv6 packet.
pub fn sequence_ipv6(packet: &[u8]) -> u64
    ensures { result ≡ sequence6 packet.now }
{
    numbered_ipv6(packet).unwrap_or(0)
}

// Of an IPv4 packet.
pub fn sequence_ipv4(packet: &[u8]) -> u64
    ensures { result ≡ sequence4 packet.now }
{
    numbered_ipv4(packet).unwrap_or(0)
}
