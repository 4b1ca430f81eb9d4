// ICMPv6 error messages (RFC 4443, 3.3 and 3.4) about a packet that the IPv6 call refused: how one is written.
#![tactic(auto)]

ghost use Rattle.std.specs.Prelude.{◌≡◌, [], ◌++◌, ◌+◌, ◌-◌, ◌%◌, ◌≤◌, ◌<◌, length};
ghost use Rattle.rules.specs.Ipv6.{ipv6};
ghost use Rattle.rules.specs.Answer.{Sent, settle};
ghost use Rattle.copying.specs.Run.{Run};
ghost use Rattle.answer.specs.Answered.{Settled};
ghost use Rattle.icmp.specs.Icmp.{icmp, checksum_of, icmp_packet};

use records::entry;
use rules::{Refusal, assigned};

// Octets of ICMPv6, and of IPv6 and ICMPv6, before the quoted ones.
const ICMPV6_SIZE: usize = 8;

const HEADERS_SIZE: usize = 48;

// What is left of 1,280 octets, the least MTU of IPv6.
const QUOTED_AT_MOST: usize = 1232;

// ICMPv6's number in the pseudo-header.
const ICMPV6: u64 = 58;

// How many octets of a packet are quoted.
fn quoted_size(size: usize) -> usize
    ensures { (result ≡ size - (size - 1232)) × (result ≤ 1232) }
{
    size.min(QUOTED_AT_MOST)
}

// Type, code, checksum, and the pointer in 32 bits, which in Time Exceeded is 0.
fn header_with(r: Refusal, checksum: u16) -> [u8; 8]
    ensures { result ≡ icmp r checksum [] }
{
    let [c0, c1] = checksum.to_be_bytes();
    let [p0, p1] = r.pointer.to_be_bytes();
    [r.icmpType, r.icmpCode, c0, c1, 0, 0, p0, p1]
}

// What is sent for words whose sum this is: a computed 0 stays 0.
fn complement(total: u64) -> u16
    ensures { result ≡ (65535 - total % 65535) % 65535 }
{
    ((65535 - total % 65535) % 65535) as u16
}

// The checksum of a message between two addresses: its header, in which it is 0, and the quoted octets.
fn checksum(from: [u8; 16], to: [u8; 16], header: [u8; 8], quoted: &[u8]) -> u16
    requires { length quoted.now ≤ 1232 }
    ensures { result ≡ checksum_of from to (header ++ quoted.now) }
{
    complement(
        sum::unreduced_address(from)
            + sum::unreduced_address(to)
            + (ICMPV6_SIZE + quoted.len()) as u64
            + ICMPV6
            + sum::unreduced(&header)
            + sum::unreduced(quoted),
    )
}

// The header with its checksum, between two addresses.
fn header_for(r: Refusal, from: [u8; 16], to: [u8; 16], quoted: &[u8]) -> [u8; 8]
    requires { length quoted.now ≤ 1232 }
    ensures { result ≡ icmp r (checksum_of from to (icmp r 0 quoted.now)) [] }
{
    let sum = checksum(from, to, header_with(r, 0), quoted);
    header_with(r, sum)
}

// Both headers, at the front of out: traffic class 0, flow label 0.
fn put_headers(
    out: &mut [u8],
    payload: u16,
    hops: u8,
    source: [u8; 16],
    destination: [u8; 16],
    header: [u8; 8],
)
    requires { 48 ≤ length out.old }
    ensures { Run out.old 0 48 (ipv6 0 payload 58 hops source destination [] ++ header) out.new }
{
    ip::put_ipv6(
        out,
        0,
        payload,
        assigned::ICMPV6_PROTOCOL,
        hops,
        source,
        destination,
    );
    copying::copy_to(out, 40, &header);
}

// The message about a packet that was refused with r at the entry e: row 16, then what is sent.
pub fn send(e: &[u8], r: Refusal, packet: &[u8], out: &mut [u8]) -> Result<usize, Refusal>
    ensures { Settled (settle (length out.old) (Sent (icmp_packet e.now r packet.now)))
        out.old result out.new }
{
    let n = quoted_size(packet.len());
    let quoted = &packet[0..n];
    let hops = octets::octet_or_0(e, entry::HOP_LIMIT);
    let source = octets::window::<16>(e, entry::SOURCE);
    let destination = octets::window::<16>(packet, 8);
    let header = header_for(r, source, destination, quoted);
    let sent = answer::send(HEADERS_SIZE, quoted, 0, out)?;
    put_headers(
        out,
        (ICMPV6_SIZE + n) as u16,
        hops,
        source,
        destination,
        header,
    );
    Ok(sent)
}
