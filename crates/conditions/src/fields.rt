// What fields of several kinds of record may hold.
ghost use Rattle.std.specs.Prelude.{◌≡◌};
ghost use Rattle.rules.specs.Sound.{direction_known, session_known, start_within};

use rules::assigned;

// The most octets of the two prefixes that stand before an IPv4 destination and before an IPv4 source.
pub const P_MOST: u8 = 7;

pub const Q_MOST: u8 = 12;

// The last bit at which Args, which are 40 bits wide, can begin.
const START_MOST: u8 = 88;

pub(crate) fn direction_known(direction: u8) -> bool
    ensures { result ≡ direction_known direction }
{
    (direction == assigned::DOWNLINK) | (direction == assigned::UPLINK)
}

pub(crate) fn session_known(session: u8) -> bool
    ensures { result ≡ session_known session }
{
    (session == assigned::IPV4_SESSION)
        | ((session == assigned::IPV6_SESSION)
            | ((session == assigned::IPV4V6_SESSION) | (session == assigned::ETHERNET_SESSION)))
}

pub(crate) fn start_within(start: u8) -> bool
    ensures { result ≡ start_within start }
{
    (start % 8 == 0) & (start <= START_MOST)
}
