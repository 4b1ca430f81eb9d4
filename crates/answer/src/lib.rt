// What every call ends in: an answer, and the one function that sends.
#![tactic(auto)]

ghost use Rattle.std.specs.Prelude.{◌≡◌, ◌+◌, ◌-◌, ◌≤◌, ◌<◌, length};
ghost use Rattle.rules.specs.Answer.{Refused, packed_fields};
ghost use Rattle.answer.specs.Answered.{answer_to, answer_of, Placed};

use rules::Refusal;

// What C is told of a call: a number of the answer table with its ICMP fields, 0 where octets are sent, and how many these are.
#[derive(Clone, Copy)]
pub struct Answer {
    pub number: u8,
    pub icmpType: u8,
    pub icmpCode: u8,
    pub pointer: u16,
    pub size: usize,
}

// The octets sent, or the refusal.
impl From<Result<usize, Refusal>> for Answer {
    ghost from_gives = { λ r a. a ≡ answer_to r };

    fn from(settled: Result<usize, Refusal>) -> Answer {
        match settled {
            Ok(size) => Answer {
                number: 0,
                icmpType: 0,
                icmpCode: 0,
                pointer: 0,
                size,
            },
            Err(r) => Answer {
                number: r.number,
                icmpType: r.icmpType,
                icmpCode: r.icmpCode,
                pointer: r.pointer,
                size: 0,
            },
        }
    }
}

impl Answer {
    pub fn refused(r: Refusal) -> Answer
        ensures { (result ≡ answer_of (Refused r)) × (result.size < 65700) }
    {
        Answer::from(Err(r))
    }

    // All of it in one number: number in bits 0 to 7, ICMP type from 8, code from 16, pointer from 24, length from 40 on.
    pub fn pack(self) -> u64
        requires { self.size < 65700 }
        ensures { result ≡ packed_fields self.number self.icmpType self.icmpCode self.pointer self.size }
    {
        self.number as u64
            + self.icmpType as u64 * 0x100
            + self.icmpCode as u64 * 0x10000
            + self.pointer as u64 * 0x1000000
            + self.size as u64 * 0x10000000000
    }
}

// Row 16, then the octets of the packet from `place` on, behind room for a head of `before` octets, which whoever calls it writes.
// Everything sent is sent here.
pub fn send(before: usize, packet: &[u8], place: usize, out: &mut [u8]) -> Result<usize, Refusal>
    requires { (place ≤ length packet.now) × (before + (length packet.now - place) < 65700) }
    ensures { Placed before place packet.now out.old result out.new }
{
    let all = before + (packet.len() - place);
    if out.len() < all {
        return Err(Refusal::no_room());
    }
    copying::copy_part(out, before, packet, place);
    Ok(all)
}
