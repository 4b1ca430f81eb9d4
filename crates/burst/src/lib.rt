// Bursts (order 3): row 19, and the length that an answer holds. What a burst is, and that a trip may be made of bursts, is in specs/ and
// proofs/.
#![tactic(auto)]

ghost use Rattle.std.specs.Prelude.{◌≡◌, ◌/◌, ◌≤◌, length};
ghost use Rattle.rules.specs.Answer.{any};
ghost use Rattle.burst.specs.Burst.{sum, unfit};

// The most packets of a burst.
const MOST: usize = 32;

fn sum_of(lengths: &[u32]) -> usize
    requires { length lengths.now ≤ 32 }
    ensures { result ≡ sum lengths.now }
{
    lengths.iter().map(|&n| n as usize).sum()
}

// Row 19.
pub fn is_unfit(packets: &[u8], lengths: &[u32], places: usize) -> bool
    ensures { result ≡ any (unfit lengths.now packets.now places) }
{
    if MOST < lengths.len() {
        return true;
    }
    if sum_of(lengths) != packets.len() {
        return true;
    }
    places < lengths.len()
}

// The length that a packed answer holds.
pub fn size_of(answer: u64) -> usize
    ensures { result ≡ answer / 0x10000000000 }
{
    (answer / 0x10000000000) as usize
}
