// Extension headers of a GTP-U message (TS 29.281, 5.2.1): a reader that stands on the caller's packet.
//
// A place is that of an octet which says what type of header follows. The second octet behind it begins that header's contents, and the
// last octet of the header is the next place.
#![tactic(auto)]

ghost use Rattle.std.specs.Prelude.{◌≡◌, ◌<◌};
ghost use Rattle.extension.specs.Extension.{extension_after, fields_of, first_place};

// The octet of a GTP-U message that says the type of its first extension header.
const FIRST_PLACE: usize = 11;

// What stands at a place: the type, the unit count, where the contents begin, and the next place.
#[derive(Clone, Copy)]
pub struct Fields {
    pub kind: u8,
    pub units: u8,
    pub contents: usize,
    pub next: usize,
}

// What follows a place. Every case has the fields: what is read of a message is total, and past the end it is 0.
#[derive(Clone, Copy)]
pub enum Extension {
    // type 0: no header
    End(Fields),
    Header(Fields),
    // a header of no units, or one that reaches past the end
    Refused(Fields),
}

// A place in a GTP-U message.
#[derive(Clone, Copy)]
pub struct ExtensionReader<'a> {
    pub gtp: &'a [u8],
    pub at: usize,
}

// What follows a place of a slice. The reader's work is done here, where no function holds a reference in a struct.
fn extension_after(gtp: &[u8], at: usize) -> Extension
    requires { at < 65536 }
    ensures { result ≡ extension_after gtp.now at }
{
    let kind = octets::octet_or_0(gtp, at);
    let units = octets::octet_or_0(gtp, at + 1);
    let next = at + 4 * usize::from(units);
    let fields = Fields {
        kind,
        units,
        contents: at + 2,
        next,
    };
    if kind == 0 {
        return Extension::End(fields);
    }
    if units == 0 {
        return Extension::Refused(fields);
    }
    if gtp.len() <= next {
        return Extension::Refused(fields);
    }
    Extension::Header(fields)
}

impl<'a> ExtensionReader<'a> {
    // At the first place of a message.
    fn new(gtp: &'a [u8]) -> ExtensionReader<'a>
        ensures { (result.gtp ≡ gtp.entry) × (result.at ≡ first_place) }
    {
        ExtensionReader {
            gtp,
            at: FIRST_PLACE,
        }
    }

    // What follows the reader's place.
    fn step(self) -> Extension
        requires { self.at < 65536 }
        ensures { result ≡ extension_after self.entry.gtp.now self.entry.at }
    {
        extension_after(self.gtp, self.at)
    }
}

// The first extension header of a GTP-U message, with plain parameters.
pub fn first(gtp: &[u8]) -> Extension
    ensures { result ≡ extension_after gtp.now first_place }
{
    ExtensionReader::new(gtp).step()
}

// The fields of every case.
pub fn fields_of(e: Extension) -> Fields
    ensures { result ≡ fields_of e }
{
    match e {
        Extension::End(fields) => fields,
        Extension::Header(fields) => fields,
        Extension::Refused(fields) => fields,
    }
}
