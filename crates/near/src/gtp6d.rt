// D: End.M.GTP6.D (RFC 9433, 6.3), and Di: End.M.GTP6.D.Di (6.4), the drop-in flow of 5.4. They differ in the tail of their path alone.
ghost use Rattle.std.specs.Prelude.{◌≡◌, ◌∷◌, ◌++◌, ◌≤◌, length};
ghost use Rattle.rules.specs.Entry as Entry;
ghost use Rattle.rules.specs.SoundRecord.{SoundPolicy};
ghost use Rattle.rules.specs.Answer.{row, verdict, settle};
ghost use Rattle.rules.specs.Ipv6.{source, destination};
ghost use Rattle.rules.specs.Datagram.{bad_gtpu, message_rows};
ghost use Rattle.rules.specs.UdpChecksum.{bad_checksum};
ghost use Rattle.rules.specs.Carried.{datagram_in6};
ghost use Rattle.rules.specs.Gtp6D.{gtp6_rows, checksum_rows};
ghost use Rattle.rules.specs.Plan.{tail_at, at_gtp6d};
ghost use Rattle.args.specs.Value.{value};
ghost use Rattle.answer.specs.Answered.{Settled};
ghost use Rattle.path.specs.ByType.{rows_of};
ghost use Rattle.near.specs.Asked.{Gtp6DAsked, Viewed, Readable};
ghost use Rattle.near.specs.Gtp6DPlan.{path_plan};

use path::PathPlan;
use path::gpdu::{self, Message};
use records::{Entry, Policy, entry};
use rules::{Refusal, assigned};

// How many addresses stand behind the waypoints of a path, by behaviour.
pub fn tail_of(behaviour: u8) -> usize
    ensures { (result ≡ tail_at behaviour) × (1 ≤ result) × (result ≤ 2) }
{
    if behaviour == assigned::END_M_GTP6_D {
        return 1;
    }
    2
}

// Rows 5, 7 and 8.
fn judge_outer(h: rules::Header, g: rules::Datagram) -> Result<(), Refusal>
    ensures { result ≡ verdict (gtp6_rows h g) }
{
    if ip::bad_chain(h) {
        return Err(Refusal::bad_chain());
    }
    if ip::segments_remain(h) {
        return Err(Refusal::segments_left());
    }
    if gtpu::not_gtpu(h.upper, g) {
        return Err(Refusal::upper_layer(h.upperAt));
    }
    Ok(())
}

// Row 18, of a datagram with a UDP header.
fn bad_checksum(e: &Entry, h: rules::Header, packet: &[u8]) -> bool
    requires { Readable packet.now h }
    ensures { result ≡ bad_checksum (Entry.zero_allowed e.now) (source packet.now)
        (destination packet.now) (datagram_in6 packet.now) }
{
    let allowed = e[entry::ZERO_CHECKSUM] == 1;
    udp::bad_checksum(packet, h.upperAt as usize, allowed)
}

// Rows 18 and 10, and of a message that is no Echo Request 11 to 15.
fn judge_checked(e: &Entry, h: rules::Header, packet: &[u8], m: &Message) -> Result<(), Refusal>
    requires { Readable packet.now h }
    ensures { result ≡ verdict (checksum_rows e.now packet.now ++ row (bad_gtpu m.now.view) 10 ∷ rows_of m.now) }
{
    if bad_checksum(e, h, packet) {
        return Err(Refusal::bad_checksum());
    }
    m.judge_gtpu()
}

// Row 9 and those behind it. The checksum is looked at only where the length of its datagram is right.
fn judge_datagram(e: &Entry, h: rules::Header, packet: &[u8], m: &Message) -> Result<(), Refusal>
    requires { Viewed packet.now h m.now.view }
    ensures { result ≡ verdict (message_rows (checksum_rows e.now packet.now) m.now.view ++ rows_of m.now) }
{
    gtpu::judge_udp(m.view)?;
    judge_checked(e, h, packet, m)
}

// Rows 5, 7 and 8, and those behind them.
fn judge(e: &Entry, h: rules::Header, packet: &[u8], m: &Message) -> Result<(), Refusal>
    requires { Viewed packet.now h m.now.view }
    ensures { result ≡ verdict (gtp6_rows h m.now.view ++ (message_rows (checksum_rows e.now packet.now) m.now.view ++ rows_of m.now)) }
{
    judge_outer(h, m.view)?;
    judge_datagram(e, h, packet, m)
}

// What is to be sent.
fn plan_of(
    e: &Entry,
    policy: &Policy,
    tail: usize,
    class: u8,
    args: args::Args,
    first: u8,
    to: [u8; 16],
    place: usize,
    size: usize,
) -> PathPlan
    requires { SoundPolicy policy.now }
    ensures { result ≡ path_plan tail e.now policy.now class (value args) first to place size }
{
    let n = octets::wide(policy[records::policy::SID_COUNT]);
    let last = octets::window::<16>(policy, records::policy::SIDS + 16 * (n - 1));
    let sid = args.in_sid(last, policy[records::policy::START]);
    let source = octets::window::<16>(e, entry::SOURCE);
    PathPlan {
        trafficClass: class,
        upper: gpdu::inner_next(e[entry::SESSION], first),
        hopLimit: e[entry::HOP_LIMIT],
        source,
        sid,
        end: to,
        tail,
        waypoints: n - 1,
        from: records::policy::SIDS,
        place,
        size,
    }
}

// The packet at an entry of D or Di, which has a policy.
pub fn at_gtp6d(
    e: &[u8],
    policy: &[u8],
    tail: usize,
    h: rules::Header,
    packet: &[u8],
    out: &mut [u8],
) -> Result<usize, Refusal>
    requires { Gtp6DAsked e.now policy.now tail packet.now h }
    ensures { Settled (settle (length out.old) (at_gtp6d tail e.now policy.now
        packet.now)) out.old result out.new }
{
    let e: &Entry = e.as_array().unwrap();
    let policy: &Policy = policy.as_array().unwrap();
    let count = octets::wide(policy[records::policy::SID_COUNT]) - 1 + tail;
    let head = 48 + 16 * count;
    let at = h.upperAt as usize;
    let g = gtpu::datagram_at(packet, at);
    let place = at + gtpu::inner_at(g);
    let size = packet.len().saturating_sub(place);
    let first = octets::octet_or_0(packet, place);
    let message = Message {
        direction: e[entry::DIRECTION],
        session: e[entry::SESSION],
        view: g,
        size,
        first,
        field: 8 + 16 * count + size,
    };
    judge(e, h, packet, &message)?;
    if echo::is_echo(g) {
        return echo::reply6(packet, at, h.trafficClass, e[entry::HOP_LIMIT], out);
    }
    let args = gtpu::args_at(packet, at);
    let to = octets::window::<16>(packet, 24);
    let plan = plan_of(
        e,
        policy,
        tail,
        h.trafficClass,
        args,
        first,
        to,
        place,
        size,
    );
    let sent = answer::send(head, packet, place, out)?;
    plan.put(policy, out);
    Ok(sent)
}
