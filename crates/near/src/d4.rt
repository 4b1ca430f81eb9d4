// D4: H.M.GTP4.D (RFC 9433, 6.7).
ghost use Rattle.std.specs.Prelude.{◌≡◌, cond, [], ◌++◌, ◌+◌, ◌*◌, ◌≤◌, ◌<◌, eqb, length};
ghost use Rattle.rules.specs.Octets.{window};
ghost use Rattle.rules.specs.Rule as Rule;
ghost use Rattle.rules.specs.Args.{with_args};
ghost use Rattle.rules.specs.Answer.{settle, verdict};
ghost use Rattle.rules.specs.Datagram.{message_rows};
ghost use Rattle.rules.specs.E4.{start_behind};
ghost use Rattle.rules.specs.D4.{address_behind, gtp4_rows, at_d4};
ghost use Rattle.rules.specs.Plan.{d4_head};
ghost use Rattle.copying.specs.Run.{Run};
ghost use Rattle.args.specs.Value.{value};
ghost use Rattle.answer.specs.Answered.{Settled};
ghost use Rattle.path.specs.ByType.{rows_of};
ghost use Rattle.near.specs.Asked.{D4Asked, PutD4};

use path::PathPlan;
use path::gpdu::{self, Message};
use records::{Rule, rule};
use rules::Refusal;

// An IPv4 header without options: the datagram begins behind it.
const DATAGRAM_AT: usize = 20;

// Row 8: dropped, no ICMP.
fn judge_outer(h: rules::Header4, g: rules::Datagram) -> Result<(), Refusal>
    ensures { result ≡ verdict (gtp4_rows h g) }
{
    if gtpu::not_gtpu(h.protocol, g) {
        return Err(Refusal::dropped());
    }
    Ok(())
}

// Rows 8 to 10, and of a message that is no Echo Request 11 to 15.
fn judge(h: rules::Header4, m: &Message) -> Result<(), Refusal>
    ensures { result ≡ verdict (gtp4_rows h m.now.view ++ (message_rows [] m.now.view ++ rows_of m.now)) }
{
    judge_outer(h, m.view)?;
    m.judge()
}

// n octets of the prefix that stands in r at `at`, an IPv4 address, zeros.
fn behind(r: &Rule, at: usize, n: usize, address: [u8; 4]) -> [u8; 16]
    requires { (at + 16 ≤ 160) × (n ≤ 12) }
    ensures { result ≡ address_behind (window r.now at 16) n address }
{
    let mut a = [0u8; 16];
    let end = at + n;
    copying::copy_to(&mut a, 0, &r[at..end]);
    copying::copy_to(&mut a, n, &address);
    a
}

// The SID that the rule builds.
pub fn sid_of(r: &[u8], to: [u8; 4], args: args::Args) -> [u8; 16]
    requires { (length r.now ≡ 160) × (Rule.p r.now ≤ 7) }
    ensures { result ≡ with_args (address_behind (Rule.sid_prefix r.now) (Rule.p r.now) to) (start_behind
        (Rule.p r.now)) (value args) }
{
    let r: &Rule = r.as_array().unwrap();
    let p = r[rule::P];
    let base = behind(r, rule::SID_PREFIX, octets::wide(p), to);
    args.in_sid(base, 8 * (p + 4))
}

// The length field of what is to be sent past w waypoints.
fn payload(w: usize, size: usize) -> usize
    requires { (w < 256) × (size < 65536) }
    ensures { result ≡ cond (eqb w 0) size (24 + 16 * w + size) }
{
    if w == 0 { size } else { 24 + 16 * w + size }
}

// The octets of the head past w waypoints.
fn head_size(w: usize) -> usize
    requires { w ≤ 7 }
    ensures { (result ≡ cond (eqb w 0) 40 (48 + 16 * (w + 1))) × (result ≤ 176) }
{
    if w == 0 { 40 } else { 48 + 16 * (w + 1) }
}

// The head of a plan along the rule's waypoints; with none of them there is no SRH.
fn put_head(r: &Rule, plan: PathPlan, out: &mut [u8])
    requires { PutD4 r.now plan (length out.old) }
    ensures { Run out.old 0 (cond (eqb plan.waypoints 0) 40 (48 + 16 * (plan.waypoints + 1))) (d4_head r.now
        plan.trafficClass plan.upper plan.source plan.sid plan.size) out.new }
{
    if plan.waypoints == 0 {
        ip::put_ipv6(
            out,
            plan.trafficClass,
            plan.size as u16,
            plan.upper,
            plan.hopLimit,
            plan.source,
            plan.sid,
        );
        return;
    }
    plan.put(r, out);
}

// The packet at a rule.
pub fn at_d4(r: &[u8], h: rules::Header4, packet: &[u8], out: &mut [u8]) -> Result<usize, Refusal>
    requires { D4Asked r.now packet.now h }
    ensures { Settled (settle (length out.old) (at_d4 r.now packet.now)) out.old result
        out.new }
{
    let r: &Rule = r.as_array().unwrap();
    let w = octets::wide(r[rule::WAYPOINT_COUNT]);
    let q = octets::wide(r[rule::Q]);
    let g = gtpu::datagram_at(packet, DATAGRAM_AT);
    let place = DATAGRAM_AT + gtpu::inner_at(g);
    let size = packet.len().saturating_sub(place);
    let first = octets::octet_or_0(packet, place);
    let message = Message {
        direction: r[rule::DIRECTION],
        session: r[rule::SESSION],
        view: g,
        size,
        first,
        field: payload(w, size),
    };
    judge(h, &message)?;
    if echo::is_echo(g) {
        let tos = octets::octet_or_0(packet, 1);
        return echo::reply4(packet, DATAGRAM_AT, tos, r[rule::HOP_LIMIT], out);
    }
    let args = gtpu::args_at(packet, DATAGRAM_AT);
    let from = octets::window::<4>(packet, 12);
    let to = octets::window::<4>(packet, 16);
    let class = octets::octet_or_0(packet, 1);
    let source = behind(r, rule::SOURCE_PREFIX, q, from);
    let sid = sid_of(r, to, args);
    let sent = answer::send(head_size(w), packet, place, out)?;
    let plan = PathPlan {
        trafficClass: class,
        upper: gpdu::inner_next(r[rule::SESSION], first),
        hopLimit: r[rule::HOP_LIMIT],
        source,
        sid,
        end: sid,
        tail: 1,
        waypoints: w,
        from: rule::WAYPOINTS,
        place,
        size,
    };
    put_head(r, plan, out);
    Ok(sent)
}
