// Numbers that stand in octets, most significant octet first. Each compiles to one load.
#![tactic(auto)]

ghost use Rattle.std.specs.Prelude.{◌≡◌, ◌+◌, ◌≤◌, ◌<◌, length};
ghost use Rattle.numbers.specs.Read.{Read};

pub fn two(s: &[u8], at: usize) -> u64
    requires { at + 2 ≤ length s.now }
    ensures { Read s.now at 2 result }
{
    u64::from(u16::from_be_bytes(octets::array(s, at)))
}

pub fn four(s: &[u8], at: usize) -> u64
    requires { at + 4 ≤ length s.now }
    ensures { Read s.now at 4 result }
{
    u64::from(u32::from_be_bytes(octets::array(s, at)))
}

pub fn eight(s: &[u8], at: usize) -> u64
    requires { at + 8 ≤ length s.now }
    ensures { Read s.now at 8 result }
{
    u64::from_be_bytes(octets::array(s, at))
}
