// An IPv4 rule: where its fields lie.
ghost use Rattle.std.specs.Prelude.{◌≡◌, length};
ghost use Rattle.rules.specs.Rule.{prefix};

pub const PREFIX_LENGTH: usize = 0;

pub const HOP_LIMIT: usize = 1;

pub const DIRECTION: usize = 2;

pub const SESSION: usize = 3;

pub const P: usize = 4;

pub const Q: usize = 5;

pub const WAYPOINT_COUNT: usize = 6;

pub const RESERVED: usize = 7;

pub const PREFIX: usize = 8;

pub const SID_PREFIX: usize = 16;

pub const SOURCE_PREFIX: usize = 32;

pub const WAYPOINTS: usize = 48;

pub fn prefix_of(r: &[u8]) -> &[u8; crate::IPV4_ADDRESS_SIZE]
    requires { length r.now ≡ 160 }
    ensures same { result.now ≡ prefix r.now }
{
    crate::array(r, PREFIX)
}
