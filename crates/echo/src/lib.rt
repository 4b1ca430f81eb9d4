// Echo at D, Di and D4 (TS 29.281, 7.2): row 17, and the Echo Response that goes back to the sender of an Echo Request. Flags, TEID, port
// and sequence number are read from the packet here and not from its view: nothing is kept for them where a G-PDU is sent on.
#![tactic(auto)]

ghost use Rattle.std.specs.Prelude.{◌≡◌, [], ◌++◌, ◌≤◌, ◌<◌, length, drop};
ghost use Rattle.rules.specs.Octets.{window, splice};
ghost use Rattle.rules.specs.Ipv6.{ipv6, source, destination};
ghost use Rattle.rules.specs.Ipv4.{ipv4};
ghost use Rattle.rules.specs.Gtpu.{echo_datagram};
ghost use Rattle.rules.specs.Answer.{any, Sent, settle, unless};
ghost use Rattle.rules.specs.Datagram.{datagram};
ghost use Rattle.rules.specs.Echo.{is_echo, bad_echo, echo_rows, echo_answer, echo_checksum};
ghost use Rattle.copying.specs.Run.{Run};
ghost use Rattle.answer.specs.Answered.{Settled};
ghost use Rattle.echo.specs.Reply.{reply_to6, reply_to4};

use rules::{Refusal, assigned};

// Octets of a reply: UDP and GTP-U, and with the IPv6 header or the IPv4 header before them.
const DATAGRAM: u8 = 22;

const REPLY6: usize = 62;

const REPLY4: usize = 42;

// Where fields stand in the datagram of a request.
const SOURCE_PORT_AT: usize = 0;

const FLAGS_AT: usize = 8;

const TEID_AT: usize = 12;

const SEQUENCE_NUMBER_AT: usize = 16;

// Version 1, PT 1, S only.
const FLAGS: u8 = 0x32;

// Octets of the message behind the first eight.
const LENGTH: u8 = 6;

// Whether a message is an Echo Request.
pub fn is_echo(g: rules::Datagram) -> bool
    ensures { result ≡ is_echo g }
{
    g.messageType == assigned::ECHO_REQUEST
}

// UDP and GTP-U of a reply to a port, with a UDP checksum and a sequence number.
fn datagram_of(port: u16, checksum: u16, number: u16) -> [u8; 22]
    ensures { result ≡ echo_datagram port checksum number }
{
    let [s0, s1] = assigned::GTPU_PORT.to_be_bytes();
    let [d0, d1] = port.to_be_bytes();
    let [c0, c1] = checksum.to_be_bytes();
    let [n0, n1] = number.to_be_bytes();
    [
        s0,
        s1,
        d0,
        d1,
        0,
        DATAGRAM,
        c0,
        c1,
        FLAGS,
        assigned::ECHO_RESPONSE,
        0,
        LENGTH,
        0,
        0,
        0,
        0,
        n0,
        n1,
        0,
        0,
        assigned::RECOVERY,
        0,
    ]
}

// Row 17, of the message in the datagram that begins at octet `at` of a packet: without S, or with a TEID other than 0.
fn bad_echo(packet: &[u8], at: usize) -> bool
    requires { at < 65536 }
    ensures { result ≡ any (bad_echo (datagram (drop at packet.now))) }
{
    let flags = octets::octet_or_0(packet, at + FLAGS_AT);
    let teid = octets::window::<4>(packet, at + TEID_AT);
    (flags / 2 % 2 != 1) | (u32::from_be_bytes(teid) != 0)
}

// The reply to the request whose datagram begins there: to its source port, with its sequence number. Over IPv4 the checksum is 0.
fn response(packet: &[u8], at: usize, checksum: u16) -> [u8; 22]
    requires { at < 65536 }
    ensures { result ≡ echo_answer checksum (drop at packet.now) }
{
    let port = octets::number_at(packet, at, SOURCE_PORT_AT);
    let number = octets::number_at(packet, at, SEQUENCE_NUMBER_AT);
    datagram_of(port, checksum, number)
}

// The same over IPv6, where the checksum is that of the reply, between the packet's addresses exchanged.
fn response6(packet: &[u8], at: usize) -> [u8; 22]
    requires { at < 65536 }
    ensures { result ≡ echo_answer (echo_checksum (destination packet.now) (source packet.now)
        (drop at packet.now)) (drop at packet.now) }
{
    let from = octets::window::<16>(packet, 24);
    let to = octets::window::<16>(packet, 8);
    let bare = response(packet, at, 0);
    let sum = udp::checksum_of(from, to, &bare);
    response(packet, at, sum)
}

fn put_reply6(
    out: &mut [u8],
    class: u8,
    hops: u8,
    source: [u8; 16],
    destination: [u8; 16],
    datagram: [u8; 22],
)
    requires { 62 ≤ length out.old }
    ensures { Run out.old 0 62 (ipv6 class 22 17 hops source destination [] ++ datagram) out.new }
{
    ip::put_ipv6(
        out,
        class,
        DATAGRAM as u16,
        assigned::UDP_PROTOCOL,
        hops,
        source,
        destination,
    );
    copying::copy_to(out, 40, &datagram);
}

fn put_reply4(
    out: &mut [u8],
    tos: u8,
    ttl: u8,
    source: [u8; 4],
    destination: [u8; 4],
    datagram: [u8; 22],
)
    requires { 42 ≤ length out.old }
    ensures { Run out.old 0 42 (ipv4 tos 42 ttl source destination [] ++ datagram) out.new }
{
    ip::put_ipv4(out, tos, REPLY4 as u16, ttl, source, destination);
    copying::copy_to(out, 20, &datagram);
}

// The reply to the Echo Request in an IPv6 packet, whose datagram begins at octet `at`: row 16, then what is sent.
fn send6(packet: &[u8], at: usize, class: u8, hops: u8, out: &mut [u8]) -> Result<usize, Refusal>
    requires { at < 65536 }
    ensures { Settled (settle (length out.old) (Sent (reply_to6 packet.now at class hops)))
        out.old result out.new }
{
    let datagram = response6(packet, at);
    let source = octets::window::<16>(packet, 24);
    let destination = octets::window::<16>(packet, 8);
    let sent = answer::send(REPLY6, packet, packet.len(), out)?;
    put_reply6(out, class, hops, source, destination, datagram);
    Ok(sent)
}

// The addresses of an IPv4 packet, exchanged, in their place in out.
fn exchange4(packet: &[u8], out: &mut [u8])
    requires { (20 ≤ length packet.now) × (20 ≤ length out.old) }
    ensures { out.new ≡ splice out.old 12 (window packet.now 16 4
        ++ window packet.now 12 4) }
{
    copying::copy_to(out, 12, &packet[16..20]);
    copying::copy_to(out, 16, &packet[12..16]);
}

// The same over IPv4. The checksum needs the addresses octet by octet. They are read from the output, where they were copied to: the
// compiler would share such reads of the packet with the lookup of its destination, and slow that down for every packet.
fn send4(packet: &[u8], at: usize, tos: u8, ttl: u8, out: &mut [u8]) -> Result<usize, Refusal>
    requires { (at < 65536) × (20 ≤ length packet.now) }
    ensures { Settled (settle (length out.old) (Sent (reply_to4 packet.now at tos ttl)))
        out.old result out.new }
{
    let datagram = response(packet, at, 0);
    let sent = answer::send(REPLY4, packet, packet.len(), out)?;
    exchange4(packet, out);
    let source = octets::window::<4>(out, 12);
    let destination = octets::window::<4>(out, 16);
    put_reply4(out, tos, ttl, source, destination, datagram);
    Ok(sent)
}

// An Echo Request in an IPv6 packet, whose datagram begins at octet `at`: rows 17 and 16, and the reply.
pub fn reply6(
    packet: &[u8],
    at: usize,
    class: u8,
    hops: u8,
    out: &mut [u8],
) -> Result<usize, Refusal>
    requires { at < 65536 }
    ensures { Settled (settle (length out.old) (unless (echo_rows (datagram (drop at packet.now)))
        (Sent (reply_to6 packet.now at class hops)))) out.old result out.new }
{
    if bad_echo(packet, at) {
        return Err(Refusal::bad_echo());
    }
    send6(packet, at, class, hops, out)
}

// The same over IPv4.
pub fn reply4(packet: &[u8], at: usize, tos: u8, ttl: u8, out: &mut [u8]) -> Result<usize, Refusal>
    requires { (at < 65536) × (20 ≤ length packet.now) }
    ensures { Settled (settle (length out.old) (unless (echo_rows (datagram (drop at packet.now)))
        (Sent (reply_to4 packet.now at tos ttl)))) out.old result out.new }
{
    if bad_echo(packet, at) {
        return Err(Refusal::bad_echo());
    }
    send4(packet, at, tos, ttl, out)
}
