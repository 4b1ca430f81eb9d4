// Tables that the caller lends as octets: whether one is sound, and what it breaks.
#![tactic(auto)]

ghost use Rattle.std.specs.Prelude.{◌≡◌};
ghost use Rattle.rules.specs.Sound.{sound};

mod apart; // apart.rt: records whose prefix with its length occurs twice
mod quick; // quick.rt: a sound table told in one pass
mod faults; // faults.rt: which condition of soundness a table breaks first

pub use faults::{ENTRY, fault, told};

// The table is sound: it has no fault.
pub fn sound(table: &[u8]) -> bool
    ensures { result ≡ sound table.now }
{
    if quick::surely_sound(table) {
        return true;
    }
    faults::look_for_fault(table).is_none()
}
