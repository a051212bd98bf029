// The candidates in the order of a Gray code, each by one flip from the last.
ghost use Rattle.std.specs.Prelude.{◌≡◌, ℕ, ◌-◌, ◌*◌, ◌^◌, ◌<◌, ◌≤◌, length};
ghost use Rattle.lists.specs.Entry.{nth};
ghost use Rattle.candidates.specs.GeneratorRows.{row_of, Generators};
ghost use Rattle.candidates.specs.Tried.{tried};

use crate::score::{flip, score};
use calls::copy::copy;

// All combinations of w generators, which stand in rows of `h` with their supports, added to the word that stands in `best`: the one of the greatest score is left there.
pub fn try_all(
    w: usize,
    metrics: &[f32],
    counts: &[u16],
    h: &[u8],
    current: &mut [u8],
    best: &mut [u8],
)
    requires w_bound { (w ≤ 16) × (length counts.now ≡ 16) × (length best.old ≤ 256) }
    requires current_len { (length current.old ≡ length best.old) × (length best.old * 32 ≤ length metrics.now) × ((v : ℕ) → nth best.old v < 32) }
    requires generators { (Generators (length best.old) w (row_of (length best.old) h.now) counts.now h.now)
        × ((j v : ℕ) → j < w → nth (row_of (length best.old) h.now j) v < 32) }
    ensures { best.new ≡ (tried metrics.now (row_of (length best.old) h.now) best.old (2 ^ w - 1)).best }
{
    let n = best.len();
    copy(best, current);
    let mut cur = score(metrics, current);
    let mut most = cur;
    let steps = (1u32 << w) - 1;
    // No plainer: the number of the step says which generator is flipped.
    for i in 0..steps {
        let j = u32::trailing_zeros(i + 1) as usize;
        let from = j * 256;
        let to = from + n;
        let places = (j + 16) * 256;
        let end = places + counts[j] as usize;
        cur = flip(metrics, &h[from..to], &h[places..end], current, cur);
        if cur > most {
            most = cur;
            copy(current, best);
        }
    }
}
