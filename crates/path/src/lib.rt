// Packets along a path: what D, Di and D4 share. Rows 9 to 15 are in gpdu.rt; here is what is written before the inner packet.
#![tactic(auto)]

ghost use Rattle.std.specs.Prelude.{◌≡◌, [], ◌∷◌, ◌++◌, ◌+◌, ◌*◌, ◌≤◌, ◌<◌, length, get_or};
ghost use Rattle.rules.specs.Table.{addresses_at};
ghost use Rattle.rules.specs.Srh.{segments};
ghost use Rattle.rules.specs.Plan.{path_front, tail_of};
ghost use Rattle.copying.specs.Run.{Run};
ghost use Rattle.path.specs.Fits.{Ready, head_of};

use rules::assigned;

pub mod gpdu; // gpdu.rt: what is asked of a G-PDU, and the next header of its inner packet

// Where a path begins to be written behind an IPv6 header and the first octets of an SRH.
const FRONT: usize = 48;

// What is written along a path: waypoints that stand in a record from octet `from` on, then a SID, and with a tail of 2 the address `end`
// behind it; and from which place on the arriving octets follow.
#[derive(Clone, Copy)]
pub struct PathPlan {
    pub trafficClass: u8,
    pub upper: u8,
    pub hopLimit: u8,
    pub source: [u8; 16],
    pub sid: [u8; 16],
    pub end: [u8; 16],
    pub tail: usize,
    pub waypoints: usize,
    pub from: usize,
    pub place: usize,
    pub size: usize,
}

// The IPv6 header and the first eight octets of an SRH, toward the first address of the path.
fn put_front(out: &mut [u8], plan: PathPlan, to: [u8; 16])
    requires { (48 ≤ length out.old) × (8 + 16 * (plan.waypoints + plan.tail) + plan.size < 65536)
        × (1 ≤ plan.waypoints + plan.tail) × (plan.waypoints + plan.tail ≤ 9) }
    ensures { Run out.old 0 48 (path_front plan.trafficClass plan.upper plan.hopLimit plan.source to (plan.waypoints + plan.tail)
        plan.size) out.new }
{
    let n = plan.waypoints + plan.tail;
    let payload = (8 + 16 * n + plan.size) as u16;
    let left = (n - 1) as u8;
    let front = [
        plan.upper,
        (2 * n) as u8,
        assigned::SEGMENT_ROUTING,
        left,
        left,
        0,
        0,
        0,
    ];
    ip::put_ipv6(
        out,
        plan.trafficClass,
        payload,
        assigned::ROUTING_HEADER,
        plan.hopLimit,
        plan.source,
        to,
    );
    copying::copy_to(out, 40, &front);
}

// The addresses behind the waypoints, the last of them first.
fn put_tail(out: &mut [u8], tail: usize, sid: [u8; 16], end: [u8; 16])
    requires { (1 ≤ tail) × (tail ≤ 2) × (48 + 16 * tail ≤ length out.old) }
    ensures { Run out.old 48 (16 * tail) (segments (tail_of tail sid end) []) out.new }
{
    if tail == 1 {
        copying::copy_to(out, FRONT, &sid);
        return;
    }
    copying::copy_to(out, FRONT, &end);
    copying::copy_to(out, FRONT + 16, &sid);
}

impl PathPlan {
    // The first address of the path, whose waypoints stand in `holder`.
    fn first(self, holder: &[u8]) -> [u8; 16]
        ensures { result ≡ get_or (addresses_at holder.now self.from self.waypoints ++ self.sid ∷ []) 0 [] }
    {
        if self.waypoints == 0 {
            return self.sid;
        }
        octets::window::<16>(holder, self.from)
    }

    // The head of the plan: the one writer of D, Di and D4. Inlined, so that the plan is not stored and read again.
    #[inline(always)]
    pub fn put(self, holder: &[u8], out: &mut [u8])
        requires { Ready self holder.now (length out.old) }
        ensures { Run out.old 0 (48 + 16 * (self.waypoints + self.tail)) (head_of self holder.now)
            out.new }
    {
        put_front(out, self, self.first(holder));
        put_tail(out, self.tail, self.sid, self.end);
        srh::put_reversed(
            out,
            FRONT + 16 * self.tail,
            holder,
            self.from,
            self.waypoints,
        );
    }
}
