// The two likeliest values of each information symbol.
ghost use Rattle.std.specs.Prelude.{◌≡◌, ℕ, ◌+◌, ◌*◌, ◌<◌, ◌≤◌, length};
ghost use Rattle.lists.specs.Entry.{nth};
ghost use Rattle.lists.specs.Laid.{laid};
ghost use Rattle.lists.specs.Values.{values};
ghost use Rattle.candidates.specs.Alternatives.{likeliest_at, difference_at, margin_at};

use vectors::likeliest::{likeliest_two, margin};
use vectors::vector::load;

// Of each position: the likeliest value, what it differs from the second by, and the margin between the two.
pub fn alternatives(
    info: &[u16],
    posteriors: &[f32],
    syms: &mut [u8],
    differences: &mut [u8],
    margins: &mut [f32],
)
    requires k_in_bounds { (length info.now ≤ length syms.old) × (length info.now ≤ length differences.old) × (length info.now ≤ length margins.old) }
    requires by_index { (t : ℕ) → t < length info.now → nth info.now t * 32 + 32 ≤ length posteriors.now }
    ensures syms_after { syms.new ≡ laid (values (length info.now) (likeliest_at posteriors.now (nth info.now))) syms.old }
    ensures differences_after { differences.new ≡ laid (values (length info.now) (difference_at posteriors.now (nth info.now))) differences.old }
    ensures margins_after { margins.new ≡ laid (values (length info.now) (margin_at posteriors.now (nth info.now))) margins.old }
{
    for (t, v) in info.iter().enumerate() {
        let p = load(posteriors, *v as usize);
        let two = likeliest_two(&p);
        syms[t] = two.first;
        differences[t] = two.first ^ two.second;
        margins[t] = margin(&p, two);
    }
}
