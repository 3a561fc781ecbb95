// Bytes laid into a lent buffer, one behind the other. What does not fit is not stored but counted, so the same code
// writes a text and says how long it is; no writer has a precondition.
#![tactic(auto)]

ghost use Rattle.std.specs.Prelude.{[], ◌∷◌, ◌≡◌, ◌+◌, ◌≤◌, min, length};
ghost use Rattle.std.proofs.lemmas.List.Edits.{sets};
ghost use Rattle.lay.specs.Laid.{Laid, most};

// One byte; past the end nothing is stored, and the place goes on.
pub fn put(out: &mut [u8], at: usize, b: u8) -> usize
    ensures { Laid out.old at (b ∷ []) out.new result }
{
    if at < out.len() {
        out[at] = b;
        return at + 1;
    }
    behind(at, 1)
}

// The place n behind another; it stands still at the largest number.
pub fn behind(at: usize, n: usize) -> usize
    ensures { result ≡ min (at + n) most }
{
    at.saturating_add(n)
}

// The bytes of a text, all of which fit. The compiler makes one `memcpy` of the loop; `copy_from_slice` asks for `memmove`, which the
// library for C does without.
fn store(out: &mut [u8], at: usize, s: &[u8])
    requires { at + length s.now ≤ length out.old }
    ensures { out.new ≡ sets out.old at s.now }
{
    for (i, &b) in s.iter().enumerate() {
        out[at + i] = b;
    }
}

// The bytes of a text, one by one, of which some may fit.
fn put_some(out: &mut [u8], at: usize, s: &[u8]) -> usize
    ensures { Laid out.old at s.now out.new result }
{
    let mut p = at;
    for &b in s {
        p = put(out, p, b);
    }
    p
}

// The bytes of a text.
pub fn put_bytes(out: &mut [u8], at: usize, s: &[u8]) -> usize
    ensures { Laid out.old at s.now out.new result }
{
    // Lent no room, it only counts.
    if out.len() <= at {
        return behind(at, s.len());
    }
    if s.len() <= out.len() - at {
        store(out, at, s);
        return at + s.len();
    }
    put_some(out, at, s)
}
