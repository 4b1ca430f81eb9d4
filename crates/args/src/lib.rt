// Args.Mob.Session (RFC 9433, 6.1), the argument that a SID carries.
#![tactic(auto)]

ghost use Rattle.std.specs.Prelude.{◌≡◌, cond, ◌/◌, ◌%◌, ◌≤◌, eqb};
ghost use Rattle.rules.specs.Assigned.{downlink};
ghost use Rattle.rules.specs.Args.{first_octet, args_octets, args_at, with_args};
ghost use Rattle.rules.specs.Gtpu.{flow_octet};
ghost use Rattle.args.specs.Value.{value};

use rules::assigned::DOWNLINK;

// The container (TS 38.415): QFI is the low six bits of its second content octet, R the bit above them, in downlink only.
const CONTAINER_REFLECTIVE_PLACE: u8 = 64;

// The octets as they stand in a SID: every value is one that a SID can carry.
#[derive(Clone, Copy)]
pub struct Args {
    octets: [u8; Args::WIDTH_OCTETS],
}

impl Args {
    // RFC 9433, 6.1: QFI has 6 bits, R 1, U 1, and PDU Session ID, which is the TEID, 32.
    pub const WIDTH: u8 = 40;

    pub const WIDTH_OCTETS: usize = (Args::WIDTH / 8) as usize;

    // Its first octet; U is sent 0 and ignored on receipt.
    const QFI_PLACE: u8 = 4;

    const QFI_COUNT: u8 = 64;

    const REFLECTIVE_PLACE: u8 = 2;

    const REFLECTIVE_COUNT: u8 = 2;

    const UNUSED: u8 = 0;

    const TEID_AT: usize = 1;

    pub fn new(qfi: u8, reflective: u8, teid: [u8; 4]) -> Args
        ensures { value result ≡ record { qfi = qfi % 64; reflective = reflective % 2; teid = teid } }
    {
        Args {
            octets: [
                Args::first_octet(qfi, reflective),
                teid[0],
                teid[1],
                teid[2],
                teid[3],
            ],
        }
    }

    pub fn from_container(direction: u8, flow: u8, teid: [u8; 4]) -> Args
        ensures { value result ≡ record { qfi = flow % 64; reflective = cond (eqb direction downlink) (flow / 64 % 2) 0; teid = teid } }
    {
        // Of `flow` itself `new` takes the low six bits.
        let bit = flow / CONTAINER_REFLECTIVE_PLACE % Args::REFLECTIVE_COUNT;
        Args::new(flow, in_downlink(direction, bit), teid)
    }

    // From bit `start` on, at any start: past the end of a SID there are zeros.
    pub fn from_sid(sid: [u8; 16], start: u8) -> Args
        ensures { value result ≡ args_at sid start }
    {
        Args {
            octets: octets::window(&sid, octet_of(start)),
        }
    }

    pub fn qfi(self) -> u8
        ensures { result ≡ (value self).qfi }
    {
        self.octets[0] / Args::QFI_PLACE % Args::QFI_COUNT
    }

    pub fn reflective(self) -> u8
        ensures { result ≡ (value self).reflective }
    {
        self.octets[0] / Args::REFLECTIVE_PLACE % Args::REFLECTIVE_COUNT
    }

    pub fn teid(self) -> [u8; 4]
        ensures { result ≡ (value self).teid }
    {
        octets::array(&self.octets, Args::TEID_AT)
    }

    // As they are sent; U may have come as 1.
    pub fn octets(self) -> [u8; 5]
        ensures { result ≡ args_octets (value self) }
    {
        let teid = self.teid();
        [
            Args::first_octet(self.qfi(), self.reflective()),
            teid[0],
            teid[1],
            teid[2],
            teid[3],
        ]
    }

    // For a container in this direction.
    pub fn flow_octet(self, direction: u8) -> u8
        ensures { result ≡ flow_octet direction (value self).qfi (value self).reflective }
    {
        in_downlink(direction, self.reflective()) * CONTAINER_REFLECTIVE_PLACE + self.qfi()
    }

    // The SID with these octets from bit `start` on; 88 is the last start at which they fit.
    pub fn in_sid(self, sid: [u8; 16], start: u8) -> [u8; 16]
        requires { start ≤ 88 }
        ensures { result ≡ with_args sid start (value self) }
    {
        let mut out = sid;
        copying::copy_to(&mut out, octet_of(start), &self.octets());
        out
    }

    fn first_octet(qfi: u8, reflective: u8) -> u8
        ensures { result ≡ first_octet (qfi % 64) (reflective % 2) }
    {
        qfi % Args::QFI_COUNT * Args::QFI_PLACE
            + reflective % Args::REFLECTIVE_COUNT * Args::REFLECTIVE_PLACE
            + Args::UNUSED
    }
}

// Any five octets, as they stand in a SID.
impl From<[u8; 5]> for Args {
    ghost from_gives = { λ octets result. value result ≡ args_at octets 0 };

    fn from(octets: [u8; 5]) -> Args {
        Args { octets }
    }
}

fn in_downlink(direction: u8, bit: u8) -> u8
    ensures { (result ≡ cond (eqb direction downlink) bit 0) × (result ≤ bit) }
{
    if direction == DOWNLINK { bit } else { 0 }
}

fn octet_of(bit: u8) -> usize
    ensures { result ≡ bit / 8 }
{
    usize::from(bit / 8)
}
