// The far end, where SRv6 becomes GTP-U: E6, End.M.GTP6.E (RFC 9433, 6.5), and E4, End.M.GTP4.E (6.6).
#![tactic(auto)]

ghost use Rattle.std.specs.Prelude.{◌≡◌, true, false, not, [], ◌∷◌, ◌++◌, ◌+◌, ◌≤◌, length};
ghost use Rattle.rules.specs.Entry as Entry;
ghost use Rattle.rules.specs.SoundRecord.{SoundE6, SoundE4};
ghost use Rattle.rules.specs.Header.{has_srh, bad_chain, beyond_held};
ghost use Rattle.rules.specs.Session.{accepts};
ghost use Rattle.rules.specs.Answer.{any, differs, verdict, length_row, settle};
ghost use Rattle.rules.specs.E6.{at_e6};
ghost use Rattle.rules.specs.E4.{at_e4};
ghost use Rattle.rules.specs.Plan.{e4_head};
ghost use Rattle.copying.specs.Run.{Run};
ghost use Rattle.answer.specs.Answered.{Settled};
ghost use Rattle.far.specs.FarRows.{upper_rows, far_rows, FarAsked, PutFar, e6_head_of};

use records::{Entry, entry};
use rules::{Refusal, assigned};

// The next headers that an entry accepts, by PDU session type (TS 24.501).
fn accepts_next(session: u8, next: u8) -> bool
    ensures { result ≡ accepts session next }
{
    ((session == assigned::IPV4_SESSION) & (next == assigned::IPV4_PROTOCOL))
        | (((session == assigned::IPV6_SESSION) & (next == assigned::IPV6_PROTOCOL))
            | (((session == assigned::ETHERNET_SESSION) & (next == assigned::ETHERNET_PROTOCOL))
                | ((session == assigned::IPV4V6_SESSION)
                    & ((next == assigned::IPV4_PROTOCOL) | (next == assigned::IPV6_PROTOCOL)))))
}

// Row 5 at E6: as everywhere, and without SRH (house).
fn bad_chain6(h: rules::Header) -> bool
    ensures { result ≡ any (not (has_srh h) ∷ bad_chain h) }
{
    !ip::has_srh(h) | ip::bad_chain(h)
}

// Row 7 at E6: one segment left, and LE (house).
fn bad_left6(h: rules::Header) -> bool
    ensures { result ≡ any (differs h.segmentsLeft 1 ∷ beyond_held h ∷ []) }
{
    (h.segmentsLeft != 1) | ip::beyond_held(h)
}

// Row 8.
fn bad_upper(session: u8, h: rules::Header) -> bool
    ensures { result ≡ not (accepts session h.upper) }
{
    !accepts_next(session, h.upper)
}

// Row 15.
fn too_long(field: usize) -> bool
    ensures { result ≡ any (length_row field).tests }
{
    65535 < field
}

// Rows 8 and 15, for the length field of what is to be sent.
fn judge_upper(e: &Entry, h: rules::Header, field: usize) -> Result<(), Refusal>
    ensures { result ≡ verdict (upper_rows e.now h field) }
{
    if bad_upper(e[entry::SESSION], h) {
        return Err(Refusal::upper_layer(h.upperAt));
    }
    if too_long(field) {
        return Err(Refusal::too_long());
    }
    Ok(())
}

// Rows 5 and 7, and those behind them.
fn judge_e6(e: &Entry, h: rules::Header, field: usize) -> Result<(), Refusal>
    ensures { result ≡ verdict (far_rows true e.now h ++ length_row field ∷ []) }
{
    if bad_chain6(h) {
        return Err(Refusal::bad_chain());
    }
    if bad_left6(h) {
        return Err(Refusal::segments_left());
    }
    judge_upper(e, h, field)
}

fn judge_e4(e: &Entry, h: rules::Header, field: usize) -> Result<(), Refusal>
    ensures { result ≡ verdict (far_rows false e.now h ++ length_row field ∷ []) }
{
    if ip::bad_chain(h) {
        return Err(Refusal::bad_chain());
    }
    if ip::segments_remain(h) {
        return Err(Refusal::segments_left());
    }
    judge_upper(e, h, field)
}

// The head of E6, 64 octets: from the entry, the arriving SID and SRH[0]. It is made with the checksum 0, from which and the inner packet
// the checksum is computed, and then with that.
fn put_e6(e: &Entry, class: u8, sid: [u8; 16], to: [u8; 16], inner: &[u8], out: &mut [u8])
    requires { PutFar e.now 64 (24 + length inner.now) (length out.old) }
    ensures { Run out.old 0 64 (e6_head_of e.now class sid to inner.now) out.new }
{
    let args = args::Args::from_sid(sid, e[entry::START]);
    let source = octets::window::<16>(e, entry::SOURCE);
    let size = inner.len();
    let payload = (24 + size) as u16;
    let hops = e[entry::HOP_LIMIT];
    let direction = e[entry::DIRECTION];
    let port = octets::join16(e[entry::SOURCE_PORT], e[entry::SOURCE_PORT_LOW]);
    let bare = gtpu::head_of(port, direction, 0, args, size);
    let sum = udp::checksum(source, to, bare, inner);
    ip::put_ipv6(
        out,
        class,
        payload,
        assigned::UDP_PROTOCOL,
        hops,
        source,
        to,
    );
    let head = gtpu::head_of(port, direction, sum, args, size);
    copying::copy_to(out, 40, &head);
}

// The head of E4, 44 octets: addresses and Args stand in the SID and in the source that arrived; the UDP checksum is 0.
fn put_e4(e: &Entry, class: u8, sid: [u8; 16], from: [u8; 16], size: usize, out: &mut [u8])
    requires { PutFar e.now 44 (44 + size) (length out.old) × (Entry.p e.now ≤ 7) }
    ensures { Run out.old 0 44 (e4_head e.now class sid from size) out.new }
{
    let p = e[entry::P];
    let args = args::Args::from_sid(sid, 8 * (p + 4));
    let source = octets::window::<4>(&from, octets::wide(e[entry::Q]));
    let destination = octets::window::<4>(&sid, octets::wide(p));
    let total = (44 + size) as u16;
    let port = octets::join16(e[entry::SOURCE_PORT], e[entry::SOURCE_PORT_LOW]);
    ip::put_ipv4(out, class, total, e[entry::HOP_LIMIT], source, destination);
    let head = gtpu::head_of(port, e[entry::DIRECTION], 0, args, size);
    copying::copy_to(out, 20, &head);
}

// The packet at an E6 entry.
pub fn at_e6(e: &[u8], h: rules::Header, packet: &[u8], out: &mut [u8]) -> Result<usize, Refusal>
    requires { FarAsked e.now packet.now h × SoundE6 e.now }
    ensures { Settled (settle (length out.old) (at_e6 e.now packet.now)) out.old result
        out.new }
{
    let e: &Entry = e.as_array().unwrap();
    let at = h.upperAt as usize;
    let size = packet.len().saturating_sub(at);
    judge_e6(e, h, 24 + size)?;
    let sid = octets::window::<16>(packet, 24);
    let to = octets::window::<16>(packet, 48);
    let sent = answer::send(64, packet, at, out)?;
    put_e6(e, h.trafficClass, sid, to, &packet[at..], out);
    Ok(sent)
}

// The packet at an E4 entry.
pub fn at_e4(e: &[u8], h: rules::Header, packet: &[u8], out: &mut [u8]) -> Result<usize, Refusal>
    requires { FarAsked e.now packet.now h × SoundE4 e.now }
    ensures { Settled (settle (length out.old) (at_e4 e.now packet.now)) out.old result
        out.new }
{
    let e: &Entry = e.as_array().unwrap();
    let at = h.upperAt as usize;
    let size = packet.len().saturating_sub(at);
    judge_e4(e, h, 44 + size)?;
    let sid = octets::window::<16>(packet, 24);
    let from = octets::window::<16>(packet, 8);
    let sent = answer::send(44, packet, at, out)?;
    put_e4(e, h.trafficClass, sid, from, size, out);
    Ok(sent)
}
