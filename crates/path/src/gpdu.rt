// What D, Di and D4 ask of a message: rows 9 to 15, or 9 and 10 of an Echo Request, each looked at only where those before it pass; and the
// next header of the inner packet of a G-PDU. Row 18, of D and Di, is asked by these.
ghost use Rattle.std.specs.Prelude.{◌≡◌, [], ◌∷◌, ◌++◌};
ghost use Rattle.rules.specs.Answer.{row, verdict};
ghost use Rattle.rules.specs.Datagram.{bad_gtpu, message_rows, g_pdu_rows, inner_rows};
ghost use Rattle.rules.specs.Session.{inner_protocol};
ghost use Rattle.path.specs.ByType.{rows_of};

use rules::{Refusal, assigned};

// What a message is judged by: its view, direction and PDU session type of the record that it is at, size and first octet of the inner
// packet, and the length field of what is to be sent.
#[derive(Clone, Copy)]
pub struct Message {
    pub direction: u8,
    pub session: u8,
    pub view: rules::Datagram,
    pub size: usize,
    pub first: u8,
    pub field: usize,
}

impl Message {
    // Rows 11 to 15.
    fn judge_pdu(&self) -> Result<(), Refusal>
        ensures { result ≡ verdict (g_pdu_rows self.now.direction self.now.view
            ++ inner_rows self.now.session self.now.size self.now.first self.now.field) }
    {
        gtpu::judge_gpdu(self.direction, self.view)?;
        gtpu::judge_inner(self.session, self.size, self.first, self.field)
    }

    // Rows behind row 10, by the type of the message: none of an Echo Request.
    fn judge_type(&self) -> Result<(), Refusal>
        ensures { result ≡ verdict (rows_of self.now) }
    {
        if echo::is_echo(self.view) {
            return Ok(());
        }
        self.judge_pdu()
    }

    // Row 10 and those behind it.
    pub fn judge_gtpu(&self) -> Result<(), Refusal>
        ensures { result ≡ verdict (row (bad_gtpu self.now.view) 10 ∷ rows_of self.now) }
    {
        gtpu::judge_gtpu(self.view)?;
        self.judge_type()
    }

    // Row 9 and those behind it, where there is no row 18: over IPv4 no checksum is verified.
    pub fn judge(&self) -> Result<(), Refusal>
        ensures { result ≡ verdict (message_rows [] self.now.view ++ rows_of self.now) }
    {
        gtpu::judge_udp(self.view)?;
        self.judge_gtpu()
    }
}

// The next header of an inner packet that begins with the octet `first`, by PDU session type (TS 24.501).
pub fn inner_next(session: u8, first: u8) -> u8
    ensures { result ≡ inner_protocol session (first ∷ []) }
{
    if session == assigned::IPV4_SESSION {
        return assigned::IPV4_PROTOCOL;
    }
    if session == assigned::IPV6_SESSION {
        return assigned::IPV6_PROTOCOL;
    }
    if session == assigned::ETHERNET_SESSION {
        return assigned::ETHERNET_PROTOCOL;
    }
    if first / 16 == 4 {
        return assigned::IPV4_PROTOCOL;
    }
    assigned::IPV6_PROTOCOL
}
