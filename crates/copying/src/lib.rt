// Octets copied from one slice into another.
#![tactic(auto)]

ghost use Rattle.std.specs.Prelude.{◌≡◌, ◌+◌, ◌-◌, ◌≤◌, length, drop};
ghost use Rattle.rules.specs.Octets.{splice};

// All of src, into out from at on: one memmove.
pub fn copy_to(out: &mut [u8], at: usize, src: &[u8])
    requires { at + length src.now ≤ length out.old }
    ensures { out.new ≡ splice out.old at src.now }
{
    let end = at + src.len();
    out[at..end].copy_from_slice(src);
}

// What stands in src from at on, into out from to on.
pub fn copy_part(out: &mut [u8], to: usize, src: &[u8], at: usize)
    requires { (at ≤ length src.now) × (to + (length src.now - at) ≤ length out.old) }
    ensures { out.new ≡ splice out.old to (drop at src.now) }
{
    copy_to(out, to, &src[at..]);
}
