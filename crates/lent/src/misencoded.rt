// Number 7: whether a lent code's parity, information or table is not what elimination gives for its graph and order. The C interface lends parts of fixed lengths, so
// what counts of each is told by a number beside it.
ghost use Rattle.std.specs.Prelude.{◌≡◌, not, ℕ, ◌+◌, ◌*◌, ◌<◌, ◌≤◌, eqb, length, take};
ghost use Rattle.lists.specs.Among.{among};
ghost use Rattle.lists.specs.AnyBelow.{any_below};
ghost use Rattle.lists.specs.Chain.{chain};
ghost use Rattle.lists.specs.Entry.{nth};
ghost use Rattle.lists.specs.Front.{differs};
ghost use Rattle.lists.specs.Keep.{keep_below};
ghost use Rattle.lists.specs.Values.{values};
ghost use Rattle.lent.specs.Misencoded.{misencoded};
ghost use Rattle.lent.specs.Sound.{Fits, Formed};

use crate::Lent;
use elimination::elimination::eliminate;
use elimination::encoder::matrix;
use elimination::positions::is_among;

// Whether the front of `parity` is not the pivots.
fn pivots_differ(pivots: &[u16], parity: &[u16]) -> bool
    requires { length pivots.now ≤ length parity.now }
    ensures { result ≡ differs pivots.now parity.now }
{
    !parity.starts_with(pivots)
}

// Whether the front of `info` is not the positions below n that are no pivots.
fn infos_differ(n: usize, r: usize, pivots: &[u16], info: &[u16]) -> bool
    requires { (n ≤ 256) × (length info.now ≡ 256) × (r ≤ length pivots.now) }
    ensures { result ≡ differs (keep_below (λ j. not (among r (nth pivots.now) j)) n) info.now }
{
    let mut k = 0;
    // No plainer: the position j itself is compared, and `info` goes on only where it is free.
    for j in 0..n {
        if !is_among(&pivots[..r], j) {
            if info[k] as usize != j {
                return true;
            }
            k += 1;
        }
    }
    false
}

// Whether a row of the table is not the matrix's row at the information positions.
fn row_differs(a: &[u8], row: &[u8], info: &[u16]) -> bool
    requires { (length a.now ≡ length info.now) × ((t : ℕ) → t < length info.now → nth info.now t < length row.now) }
    ensures { result ≡ any_below (length info.now) (λ t. not (eqb (nth a.now t) (nth row.now (nth info.now t)))) }
{
    for (t, place) in info.iter().enumerate() {
        if a[t] != row[*place as usize] {
            return true;
        }
    }
    false
}

// The same of all r rows of k entries.
fn table_differs(r: usize, k: usize, h: &[u8], info: &[u16], a: &[u8]) -> bool
    requires r_bound { (r ≤ 256) × (k ≤ 256) × (length h.now ≡ 65536) × (length info.now ≡ 256) × (length a.now ≡ 16384) × (r * k ≤ 16384) }
    requires by_index { (t : ℕ) → t < k → nth info.now t < 256 }
    ensures { result ≡ differs (chain r (λ i. values k (λ t. nth h.now (i * 256 + nth info.now t)))) a.now }
{
    let mut at = 0;
    // No plainer: i counts the matrix's rows of 256 and `at` the table's of k, which may be 0.
    for i in 0..r {
        if row_differs(&a[at..at + k], &h[i * 256..i * 256 + 256], &info[..k]) {
            return true;
        }
        at += k;
    }
    false
}

// Runs the elimination in `h` and `pivots`, and leaves it there.
pub fn misencoded(code: &Lent, h: &mut [u8], pivots: &mut [u16]) -> bool
    requires fits { Fits code.now.code code.now.parts }
    requires formed { Formed code.now.code code.now.parts }
    requires h_len { (length h.old ≡ 65536) × (length pivots.old ≡ 256) }
    ensures { result ≡ misencoded code.now.code code.now.parts }
{
    matrix(code.numbers.m, code.var, code.coef, code.row, h);
    let r = eliminate(code.numbers.n, code.numbers.m, code.order, h, pivots);
    if r != code.numbers.rank {
        return true;
    }
    if pivots_differ(&pivots[..r], code.parity)
        | infos_differ(code.numbers.n, r, pivots, code.info)
    {
        return true;
    }
    table_differs(r, code.numbers.n - r, h, code.info, code.a)
}
