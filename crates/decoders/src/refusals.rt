// The tests by which a decoding is turned down before its rounds.
ghost use Rattle.std.specs.Prelude.{◌≡◌, ℕ, ◌+◌, ◌*◌, ◌<◌, ◌≤◌, not, eqb, length};
ghost use Rattle.lists.specs.Entry.{nth};
ghost use Rattle.calls.specs.Refusal.{first_of, answered};
ghost use Rattle.calls.specs.Parts.{worked, written};
ghost use Rattle.vectors.specs.Float32.{zero32};
ghost use Rattle.decoders.specs.BeliefPropagation.{wide, tests};
ghost use Rattle.decoders.specs.ListDecode.{not_finite};

use crate::belief_propagation;
use calls::Refusal;
use lent::{Lent, Sound};

// Whether a part does not hold n vectors; n may be any number here, so it is not multiplied.
pub fn misfit(n: usize, len: usize) -> bool
    ensures { result ≡ not (eqb len (n * 32)) }
{
    (len / 32 != n) | (len % 32 != 0)
}

// Whether a check has more than 32 edges.
pub fn too_wide(m: usize, row: &[u16]) -> bool
    requires { (m < length row.now) × ((c : ℕ) → c < m → nth row.now c ≤ nth row.now (c + 1)) }
    ensures { result ≡ wide m row.now }
{
    // No plainer: by `windows(2)` each difference would need that a window has two entries, the second not below the first.
    for c in 0..m {
        if row[c + 1] - row[c] > 32 {
            return true;
        }
    }
    false
}

// Whether an entry is not finite.
pub fn not_finite(part: &[f32]) -> bool
    ensures { result ≡ not_finite part.now }
{
    for x in part {
        if !x.is_finite() {
            return true;
        }
    }
    false
}

// A lent code that may be decoded in rounds up to the limit.
fn narrow<'s, 'a>(
    code: &'s Lent<'a>,
    limit: u32,
    h: &mut [u8],
    pivots: &mut [u16],
    rest: bool,
) -> Result<Sound<'s, 'a>, Refusal>
    ensures answer { result ≡ answered (first_of (tests code.now.code code.now.parts (length h.old) (length pivots.old) rest limit)) code.now }
    ensures h_after { h.new ≡ worked result 0 h.old }
    ensures pivots_after { pivots.new ≡ worked result 0 pivots.old }
{
    let sound = code.accepted(h, pivots, rest)?;
    if limit > 0 && belief_propagation::too_wide(&sound) {
        return Err(Refusal::WideCheck);
    }
    Ok(sound)
}

// The same. A refused code leaves the vectors as a work part should be left; they are not touched otherwise, since rounds write over them.
pub fn accepted<'s, 'a>(
    code: &'s Lent<'a>,
    limit: u32,
    h: &mut [u8],
    pivots: &mut [u16],
    vectors: &mut [f32],
    rest: bool,
) -> Result<Sound<'s, 'a>, Refusal>
    ensures answer { result ≡ answered (first_of (tests code.now.code code.now.parts (length h.old) (length pivots.old) rest limit)) code.now }
    ensures h_after { h.new ≡ worked result 0 h.old }
    ensures pivots_after { pivots.new ≡ worked result 0 pivots.old }
    ensures vectors_after { vectors.new ≡ written result (worked result zero32 vectors.old) vectors.old }
{
    let found = narrow(code, limit, h, pivots, rest);
    if let Err(refusal) = &found {
        if !refusal.touches_nothing() {
            vectors.fill(0.0);
        }
    }
    found
}
