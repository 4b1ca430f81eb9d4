// A burst served (order 3): the table is judged once; then the unused rest of the output is lent on to the call of one packet, packet
// after packet.
#![tactic(auto)]

ghost use Rattle.std.specs.Prelude.{◌≡◌, true, ◌-◌, ◌≤◌, ◌<◌, length};
ghost use Rattle.rules.specs.Sound.{sound};
ghost use Rattle.rules.specs.Answer.{packed_fields};
ghost use Rattle.rules.specs.Trip.{Version, v6, v4, translate};
ghost use Rattle.answer.specs.Answered.{Packs};
ghost use Rattle.burst.specs.Burst.{Fit};
ghost use Rattle.serving.specs.Serving.{PacksAt, Served, Whole};

use answer::Answer;
use rules::Refusal;

// The call of one packet, with a table that is known to be sound.
pub trait Call {
    ghost version: { Version };

    fn packed(packet: &[u8], table: &[u8], out: &mut [u8]) -> u64
        requires { sound table.now ≡ true }
        ensures { Packs (translate version packet.now table.now (length out.old)) out.old result
            out.new };
}

pub struct Ipv6;

pub struct Ipv4;

impl Call for Ipv6 {
    ghost version = { v6 };

    fn packed(packet: &[u8], table: &[u8], out: &mut [u8]) -> u64 {
        gateway::packed_ipv6_sound(packet, table, out)
    }
}

impl Call for Ipv4 {
    ghost version = { v4 };

    fn packed(packet: &[u8], table: &[u8], out: &mut [u8]) -> u64 {
        gateway::packed_ipv4_sound(packet, table, out)
    }
}

// One packet: the unused rest of the output is lent on.
fn one<C: Call>(packet: &[u8], table: &[u8], out: &mut [u8], used: usize) -> u64
    requires { (used ≤ length out.old) × (sound table.now ≡ true) }
    ensures { PacksAt used (translate C.version packet.now table.now (length out.old - used))
        out.old result out.new }
{
    C::packed(packet, table, &mut out[used..])
}

// All packets, with a table that is known to be sound.
fn serve<C: Call>(
    packets: &[u8],
    lengths: &[u32],
    table: &[u8],
    out: &mut [u8],
    answers: &mut [u64],
) -> usize
    requires { Fit lengths.now packets.now (length answers.old) × (sound table.now ≡ true) }
    ensures { Served C.version lengths.now packets.now table.now out.old
        answers.old result out.new answers.new }
{
    let mut place = 0;
    let mut used = 0;
    for (i, &n) in lengths.iter().enumerate() {
        let end = place + n as usize;
        let answer = one::<C>(&packets[place..end], table, out, used);
        used += burst::size_of(answer);
        answers[i] = answer;
        place = end;
    }
    used
}

// The burst answers 0 with the sum of the lengths sent.
fn sent(size: usize) -> u64
    requires { size < 16777216 }
    ensures { result ≡ packed_fields 0 0 0 0 size }
{
    size as u64 * 0x10000000000
}

// A burst of packets of one version, which lie one after the other with their lengths.
pub fn burst<C: Call>(
    packets: &[u8],
    lengths: &[u32],
    table: &[u8],
    out: &mut [u8],
    answers: &mut [u64],
) -> u64
    ensures { Whole C.version lengths.now packets.now table.now out.old
        answers.old result out.new answers.new }
{
    if burst::is_unfit(packets, lengths, answers.len()) {
        return Answer::refused(Refusal::bad_burst()).pack();
    }
    if !table::sound(table) {
        let answer = Answer::refused(Refusal::unsound()).pack();
        answers[..lengths.len()].fill(answer);
        return sent(0);
    }
    sent(serve::<C>(packets, lengths, table, out, answers))
}
