// A SID entry: where its fields lie.
ghost use Rattle.std.specs.Prelude.{◌≡◌, length};
ghost use Rattle.rules.specs.Entry.{prefix};

pub const BEHAVIOUR: usize = 0;

pub const PREFIX_LENGTH: usize = 1;

pub const HOP_LIMIT: usize = 2;

pub const DIRECTION: usize = 3;

pub const SESSION: usize = 4;

pub const POLICY: usize = 5;

pub const START: usize = 6;

pub const P: usize = 7;

pub const Q: usize = 8;

// D and Di: whether a UDP checksum of zero is allowed; reserved at the others.
pub const ZERO_CHECKSUM: usize = 9;

pub const SOURCE_PORT: usize = 10;

pub const SOURCE_PORT_LOW: usize = 11;

pub const PREFIX: usize = 16;

pub const SOURCE: usize = 32;

pub fn prefix_of(e: &[u8]) -> &[u8; crate::IPV6_ADDRESS_SIZE]
    requires { length e.now ≡ 64 }
    ensures same { result.now ≡ prefix e.now }
{
    crate::array(e, PREFIX)
}
