// The two calls: from a packet and table octets to a packet written, or a refusal.
#![tactic(auto)]

ghost use Rattle.std.specs.Prelude.{◌≡◌, ◌<◌, true, None, length};
ghost use Rattle.rules.specs.Octets.{window};
ghost use Rattle.rules.specs.Table.{entry_at};
ghost use Rattle.rules.specs.Sound.{sound};
ghost use Rattle.rules.specs.Answer.{Refused, settle};
ghost use Rattle.rules.specs.Header.{WellFormed};
ghost use Rattle.rules.specs.Header4.{WellFormed4};
ghost use Rattle.rules.specs.Calls.{at_entry, translate6, translate4};
ghost use Rattle.answer.specs.Answered.{answer_of, Settled, Answered, Packs};
ghost use Rattle.gateway.specs.Decided.{Matched, Decides6, Decides4, Matches6, Matches4};

use answer::Answer;
use near::{d4, gtp6d};
use records::entry;
use rules::{Refusal, assigned};

// An IPv4 header without options.
const IPV4_SIZE: u16 = 20;

// What a call has decided, also where it refuses: its answer, the entry or rule that matched, and where the upper layer begins.
#[derive(Clone, Copy)]
pub struct Decided {
    pub answer: Answer,
    pub found: Option<usize>,
    pub upperAt: u16,
}

impl Decided {
    // A refusal before anything matched.
    fn refused(r: Refusal, upperAt: u16) -> Decided
        ensures answer { (result.answer ≡ answer_of (Refused r)) × (result.answer.size < 65700) }
        ensures found { result.found ≡ None }
        ensures upperAt { result.upperAt ≡ upperAt }
    {
        Decided {
            answer: Answer::refused(r),
            found: None,
            upperAt,
        }
    }
}

// The packet at entry i, which matches. D and Di stand last: they are one call.
fn at_entry(
    table: &[u8],
    i: usize,
    h: rules::Header,
    front: [u8; 48],
    packet: &[u8],
    out: &mut [u8],
) -> Result<usize, Refusal>
    requires { Matched table.now i packet.now h × (front ≡ window packet.now 0 48) }
    ensures { Settled (settle (length out.old) (at_entry table.now (entry_at table.now i)
        packet.now)) out.old result out.new }
{
    let e = records::entry_at(table, i);
    let behaviour = e[entry::BEHAVIOUR];
    if behaviour == assigned::END {
        return waypoint::at_waypoint(h, front, packet, out);
    }
    if behaviour == assigned::END_M_GTP6_E {
        return far::at_e6(e, h, packet, out);
    }
    if behaviour == assigned::END_M_GTP4_E {
        return far::at_e4(e, h, packet, out);
    }
    let policy = records::policy_at(table, octets::wide(e[entry::POLICY]));
    gtp6d::at_gtp6d(e, policy, gtp6d::tail_of(behaviour), h, packet, out)
}

// The longest match of the destination, then the entry found.
fn at_match(
    table: &[u8],
    h: rules::Header,
    front: [u8; 48],
    packet: &[u8],
    out: &mut [u8],
) -> Decided
    requires { (sound table.now ≡ true) × WellFormed packet.now h × (front ≡ window packet.now 0 48) }
    ensures { Matches6 packet.now table.now h out.old result out.new }
{
    let destination = octets::window::<16>(packet, 24);
    let Some(i) = matching::find_entry(table, &destination) else {
        return Decided::refused(Refusal::no_match(), h.upperAt);
    };
    let settled = at_entry(table, i, h, front, packet, out);
    Decided {
        answer: Answer::from(settled),
        found: Some(i),
        upperAt: h.upperAt,
    }
}

// An IPv6 packet, with a table that is known to be sound.
pub fn translate_ipv6_sound(packet: &[u8], table: &[u8], out: &mut [u8]) -> Decided
    requires { sound table.now ≡ true }
    ensures { Decides6 packet.now table.now out.old result out.new }
{
    let front = octets::window::<48>(packet, 0);
    let h = ip::header_of(front, packet.len());
    if ip::is_malformed(h) {
        return Decided::refused(Refusal::malformed(), h.upperAt);
    }
    at_match(table, h, front, packet, out)
}

// The same, answered in one number: the single call and the burst both call this, with everything below it expanded in place.
pub fn packed_ipv6_sound(packet: &[u8], table: &[u8], out: &mut [u8]) -> u64
    requires { sound table.now ≡ true }
    ensures { Packs (translate6 packet.now table.now (length out.old)) out.old result
        out.new }
{
    let decided = translate_ipv6_sound(packet, table, out);
    let a = decided.answer;
    a.pack()
}

// An IPv6 packet.
pub fn translate_ipv6(packet: &[u8], table: &[u8], out: &mut [u8]) -> Answer
    ensures { Answered (translate6 packet.now table.now (length out.old)) out.old result
        out.new }
{
    if !table::sound(table) {
        return Answer::refused(Refusal::unsound());
    }
    let decided = translate_ipv6_sound(packet, table, out);
    decided.answer
}

// The same, answered in one number.
pub fn packed_ipv6(packet: &[u8], table: &[u8], out: &mut [u8]) -> u64
    ensures { Packs (translate6 packet.now table.now (length out.old)) out.old result
        out.new }
{
    if !table::sound(table) {
        return Answer::refused(Refusal::unsound()).pack();
    }
    packed_ipv6_sound(packet, table, out)
}

// The longest match of the destination among the rules, then the rule found.
fn at_match4(table: &[u8], h: rules::Header4, packet: &[u8], out: &mut [u8]) -> Decided
    requires { (sound table.now ≡ true) × WellFormed4 packet.now h }
    ensures { Matches4 packet.now table.now out.old result out.new }
{
    let destination = octets::window::<4>(packet, 16);
    let Some(k) = matching::find_rule(table, &destination) else {
        return Decided::refused(Refusal::no_match(), IPV4_SIZE);
    };
    let r = records::rule_at(table, k);
    let settled = d4::at_d4(r, h, packet, out);
    Decided {
        answer: Answer::from(settled),
        found: Some(k),
        upperAt: IPV4_SIZE,
    }
}

// An IPv4 packet, with a table that is known to be sound.
pub fn translate_ipv4_sound(packet: &[u8], table: &[u8], out: &mut [u8]) -> Decided
    requires { sound table.now ≡ true }
    ensures { Decides4 packet.now table.now out.old result out.new }
{
    let h = ip::header4_of(octets::window::<20>(packet, 0), packet.len());
    if ip::is_malformed4(h) {
        return Decided::refused(Refusal::malformed(), IPV4_SIZE);
    }
    if ip::bad_header4(h) {
        return Decided::refused(Refusal::bad_header4(), IPV4_SIZE);
    }
    at_match4(table, h, packet, out)
}

// The same, answered in one number: the single call and the burst both call this, with everything below it expanded in place.
pub fn packed_ipv4_sound(packet: &[u8], table: &[u8], out: &mut [u8]) -> u64
    requires { sound table.now ≡ true }
    ensures { Packs (translate4 packet.now table.now (length out.old)) out.old result
        out.new }
{
    let decided = translate_ipv4_sound(packet, table, out);
    let a = decided.answer;
    a.pack()
}

// An IPv4 packet.
pub fn translate_ipv4(packet: &[u8], table: &[u8], out: &mut [u8]) -> Answer
    ensures { Answered (translate4 packet.now table.now (length out.old)) out.old result
        out.new }
{
    if !table::sound(table) {
        return Answer::refused(Refusal::unsound());
    }
    let decided = translate_ipv4_sound(packet, table, out);
    decided.answer
}

// The same, answered in one number.
pub fn packed_ipv4(packet: &[u8], table: &[u8], out: &mut [u8]) -> u64
    ensures { Packs (translate4 packet.now table.now (length out.old)) out.old result
        out.new }
{
    if !table::sound(table) {
        return Answer::refused(Refusal::unsound()).pack();
    }
    packed_ipv4_sound(packet, table, out)
}
