// The waypoint: End (RFC 8986, 4.1).
#![tactic(auto)]

ghost use Rattle.std.specs.Prelude.{◌≡◌, ◌+◌, ◌-◌, ◌*◌, ◌≤◌, length};
ghost use Rattle.rules.specs.Octets.{window};
ghost use Rattle.rules.specs.Answer.{settle};
ghost use Rattle.rules.specs.Header.{WellFormed};
ghost use Rattle.rules.specs.Waypoint.{with_routing, at_waypoint};
ghost use Rattle.copying.specs.Run.{Run};
ghost use Rattle.srh.specs.State.{state};
ghost use Rattle.answer.specs.Answered.{Settled};

use rules::Refusal;
use srh::{Address, Routing};

// The IPv6 header and the first eight octets of the SRH: all that changes stands in them.
const FRONT: usize = 48;

// Where the segment that Segments Left less 1 names stands.
fn segment_at(left: u8) -> usize
    ensures { result ≡ 48 + 16 * (left - 1) }
{
    if left == 0 {
        FRONT
    } else {
        FRONT - 16 + 16 * octets::wide(left)
    }
}

// The front of a packet with another routing state.
fn put_front(out: &mut [u8], front: [u8; 48], s: Routing)
    requires { 48 ≤ length out.old }
    ensures { Run out.old 0 48 (with_routing front (state s)) out.new }
{
    let hop_limit = [s.hopLimit];
    let segments_left = [s.segmentsLeft];
    let destination = s.destination.octets();
    copying::copy_to(out, 0, &front);
    copying::copy_to(out, 7, &hop_limit);
    copying::copy_to(out, 24, &destination);
    copying::copy_to(out, 43, &segments_left);
}

// The packet at a waypoint entry. The front is read a second time where it is written: handed down whole, it would be held by every call.
pub fn at_waypoint(
    h: rules::Header,
    front: [u8; 48],
    packet: &[u8],
    out: &mut [u8],
) -> Result<usize, Refusal>
    requires { WellFormed packet.now h × (front ≡ window packet.now 0 48) }
    ensures { Settled (settle (length out.old) (at_waypoint packet.now)) out.old result
        out.new }
{
    if ip::bad_chain(h) {
        return Err(Refusal::bad_chain());
    }
    let segment = Address::at(packet, segment_at(h.segmentsLeft));
    let next = Routing::of(front).step(h, segment)?;
    let sent = answer::send(FRONT, packet, FRONT, out)?;
    let again = octets::window::<48>(packet, 0);
    put_front(out, again, next);
    Ok(sent)
}
