// UDP (RFC 768), GTP-U (TS 29.281) and the PDU Session container (TS 38.415): what is read of a datagram, the tests of rows 8 to 15, and
// how a G-PDU is written.
#![tactic(auto)]

ghost use Rattle.std.specs.Prelude.{◌≡◌, [], ◌∷◌, ◌+◌, ◌*◌, ◌/◌, ◌≤◌, ◌<◌, ltb, length, drop};
ghost use Rattle.rules.specs.Assigned.{g_pdu};
ghost use Rattle.rules.specs.Answer.{row, differs, any, verdict};
ghost use Rattle.rules.specs.Datagram.{datagram, not_gtpu, bad_udp, bad_gtpu, extended, bad_extensions, bad_container, bad_inner};
ghost use Rattle.rules.specs.Datagram.{g_pdu_rows, inner_rows};
ghost use Rattle.rules.specs.Gtpu as Gtpu;
ghost use Rattle.args.specs.Value.{value};
ghost use Rattle.gtpu.specs.Reading.{view_of, args_of};

use rules::{Refusal, assigned};

// The size of a UDP header.
const UDP_SIZE: usize = 8;

// Where the TEID stands in a datagram, its UDP header included (TS 29.281, 5.1).
const TEID_AT: usize = 12;

// Where the octets begin that the message length counts.
const MESSAGE_AT: usize = 16;

// Where the first extension header begins, behind the octet with its type (TS 29.281, 5.2.1).
const EXTENSION_AT: usize = 20;

// The flags that are written: version 1, PT and E (house).
const FLAGS: u8 = 0x20 + 0x10 + 0x04;

// The unit count of the container that is written (house).
const UNITS: u8 = 1;

// The TEID of a datagram that begins with `front`.
fn teid_of(front: [u8; 24]) -> [u8; 4]
    ensures { result ≡ Gtpu.teid front }
{
    octets::array(&front, TEID_AT)
}

// The PDU type is the high half of the first content octet of a container (TS 38.415, 5.5.2).
fn pdu_type(content: u8) -> u8
    ensures { result ≡ content / 16 }
{
    content / 16
}

// Where the first extension ends: its length is in units of four octets (TS 29.281, 5.2.1).
fn extension_end(units: u8) -> usize
    ensures { (result ≡ 20 + 4 * units) × (result < 1041) }
{
    EXTENSION_AT + 4 * usize::from(units)
}

// The view of a datagram of `size` octets that begins with `front`, with the fields of its first extension header, the first octet of the
// header's contents, and the type behind it. A function of its own: as a part of `datagram_at` it would be too much to inline.
fn datagram_of(
    front: [u8; 24],
    size: usize,
    fields: extension::Fields,
    content: u8,
    following: u8,
) -> rules::Datagram
    ensures { result ≡ view_of front size fields content following }
{
    rules::Datagram {
        size,
        destinationPort: octets::join16(front[2], front[3]),
        length: octets::join16(front[4], front[5]),
        flags: front[8],
        messageType: front[9],
        messageLength: octets::join16(front[10], front[11]),
        teid: teid_of(front),
        extensionType: fields.kind,
        extensionUnits: fields.units,
        pduType: pdu_type(content),
        followingType: following,
    }
}

// A place of a packet, or the packet's end where that comes first.
fn within(packet: &[u8], at: usize) -> usize
    ensures { (result ≤ length packet.now) × (drop result packet.now ≡ drop at packet.now) }
{
    at.min(packet.len())
}

// The view of the datagram that begins at octet `at` of a packet; all that it has of an extension header is found by the reader's step.
pub fn datagram_at(packet: &[u8], at: usize) -> rules::Datagram
    requires { at < 65536 }
    ensures { result ≡ datagram (drop at packet.now) }
{
    let front = octets::window::<24>(packet, at);
    let size = packet.len().saturating_sub(at);
    let start = within(packet, at + UDP_SIZE);
    let gtp = &packet[start..];
    let fields = extension::fields_of(extension::first(gtp));
    let content = octets::octet_or_0(gtp, fields.contents);
    let following = octets::octet_or_0(gtp, fields.next);
    datagram_of(front, size, fields, content, following)
}

// Row 8: the port is read only if 8 octets are there.
pub fn not_gtpu(protocol: u8, g: rules::Datagram) -> bool
    ensures { result ≡ any (not_gtpu protocol g) }
{
    (protocol != assigned::UDP_PROTOCOL)
        | ((UDP_SIZE <= g.size) & (g.destinationPort != assigned::GTPU_PORT))
}

// Row 9.
pub fn bad_udp(g: rules::Datagram) -> bool
    ensures { result ≡ any (bad_udp g) }
{
    (g.size < UDP_SIZE) | (usize::from(g.length) != g.size)
}

// Row 10: version 1 and PT are the high four bits; with any of E, S and PN, the low three, four octets more are there.
pub fn bad_gtpu(g: rules::Datagram) -> bool
    ensures { result ≡ any (bad_gtpu g) }
{
    (g.size < MESSAGE_AT)
        | ((g.flags / 16 != 3)
            | ((MESSAGE_AT + usize::from(g.messageLength) != g.size)
                | ((0 < g.flags % 8) & (g.size < EXTENSION_AT))))
}

// Row 11.
pub fn not_gpdu(g: rules::Datagram) -> bool
    ensures { result ≡ any (differs g.messageType g_pdu ∷ []) }
{
    g.messageType != assigned::G_PDU
}

// E is set and a type follows.
fn is_extended(g: rules::Datagram) -> bool
    ensures { result ≡ extended g }
{
    (g.flags / 4 % 2 == 1) & (0 < g.extensionType)
}

// Row 12: one PDU Session container and nothing behind it.
fn bad_extensions(g: rules::Datagram) -> bool
    ensures { result ≡ any (bad_extensions g) }
{
    is_extended(g)
        & ((g.extensionType != assigned::PDU_SESSION_CONTAINER)
            | ((g.extensionUnits == 0)
                | ((g.size < extension_end(g.extensionUnits)) | (g.followingType != 0))))
}

// Row 13.
fn bad_container(direction: u8, g: rules::Datagram) -> bool
    ensures { result ≡ any (bad_container direction g) }
{
    (!is_extended(g)) | (g.pduType != direction)
}

// Row 14: an inner packet of `size` octets with the octet `first` in front.
fn bad_inner(session: u8, size: usize, first: u8) -> bool
    ensures { result ≡ any (bad_inner session size first) }
{
    (session == assigned::IPV4V6_SESSION) & ((size == 0) | ((first / 16 != 4) & (first / 16 != 6)))
}

// Row 15.
fn too_long(field: usize) -> bool
    ensures { result ≡ ltb 65535 field }
{
    65535 < field
}

// The verdict of row 9.
pub fn judge_udp(g: rules::Datagram) -> Result<(), Refusal>
    ensures { result ≡ verdict (row (bad_udp g) 9 ∷ []) }
{
    if bad_udp(g) {
        return Err(Refusal::bad_udp());
    }
    Ok(())
}

// The verdict of row 10.
pub fn judge_gtpu(g: rules::Datagram) -> Result<(), Refusal>
    ensures { result ≡ verdict (row (bad_gtpu g) 10 ∷ []) }
{
    if bad_gtpu(g) {
        return Err(Refusal::bad_gtpu());
    }
    Ok(())
}

// The verdict of rows 11 to 13.
pub fn judge_gpdu(direction: u8, g: rules::Datagram) -> Result<(), Refusal>
    ensures { result ≡ verdict (g_pdu_rows direction g) }
{
    if not_gpdu(g) {
        return Err(Refusal::not_gpdu());
    }
    if bad_extensions(g) {
        return Err(Refusal::bad_extensions());
    }
    if bad_container(direction, g) {
        return Err(Refusal::bad_container());
    }
    Ok(())
}

// The verdict of rows 14 and 15; `field` is the length field of what is to be sent.
pub fn judge_inner(session: u8, size: usize, first: u8, field: usize) -> Result<(), Refusal>
    ensures { result ≡ verdict (inner_rows session size first field) }
{
    if bad_inner(session, size, first) {
        return Err(Refusal::bad_inner());
    }
    if too_long(field) {
        return Err(Refusal::too_long());
    }
    Ok(())
}

// What a G-PDU carries beside its inner packet, of the datagram that begins at octet `at` of a packet.
pub fn args_at(packet: &[u8], at: usize) -> args::Args
    ensures { value result ≡ args_of (drop at packet.now) }
{
    let front = octets::window::<24>(packet, at);
    let direction = pdu_type(front[EXTENSION_AT + 1]);
    args::Args::from_container(direction, front[EXTENSION_AT + 2], teid_of(front))
}

// Where the inner packet begins in the datagram.
pub fn inner_at(g: rules::Datagram) -> usize
    ensures { (result ≡ 20 + 4 * g.extensionUnits) × (result < 1041) }
{
    extension_end(g.extensionUnits)
}

// The 24 octets before an inner packet of `size` octets: sequence number and N-PDU number are 0.
pub fn head_of(port: u16, direction: u8, checksum: u16, args: args::Args, size: usize) -> [u8; 24]
    requires { (24 + size < 65536) × (direction < 16) }
    ensures { result ≡ Gtpu.datagram_before port direction checksum (value args) size [] }
{
    let from = port.to_be_bytes();
    let to = assigned::GTPU_PORT.to_be_bytes();
    let all = ((24 + size) as u16).to_be_bytes();
    let sum = checksum.to_be_bytes();
    let message = ((8 + size) as u16).to_be_bytes();
    let teid = args.teid();
    [
        from[0],
        from[1],
        to[0],
        to[1],
        all[0],
        all[1],
        sum[0],
        sum[1],
        FLAGS,
        assigned::G_PDU,
        message[0],
        message[1],
        teid[0],
        teid[1],
        teid[2],
        teid[3],
        0,
        0,
        0,
        assigned::PDU_SESSION_CONTAINER,
        UNITS,
        direction * 16,
        args.flow_octet(direction),
        0,
    ]
}
