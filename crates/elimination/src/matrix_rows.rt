// Operations on the rows of a matrix that stands in 65,536 entries, entry (i, j) at 256 i + j. The rows are 256 wide whatever n is, so that an index is linear
// in i and j; the loops have no branch, so that they become vector code. A project rule, no heap: the part is lent and of a fixed length, so m and n stand beside it.
ghost use Rattle.std.specs.Prelude.{◌≡◌, not, ℕ, ◌-◌, ◌<◌, ◌≤◌, eqb, length, map};
ghost use Rattle.lists.specs.Lowest.{lowest};
ghost use Rattle.lists.specs.Entry.{nth};
ghost use Rattle.field.specs.Field.{product};
ghost use Rattle.elimination.specs.Matrix.{Matrix};
ghost use Rattle.elimination.specs.Elimination.{swapped};
ghost use Rattle.elimination.specs.Standing.{Holds, below, plus};

use field::multiples::Multiples;

// The lowest row at or past r that is not 0 in column c. No plainer without r: the rows before it are the pivots', and are passed over.
pub fn find_row(h: &[u8], n: usize, m: usize, r: usize, c: usize) -> Option<usize>
    requires { (length h.now ≡ 65536) × (m ≤ 256) × (n ≤ 256) × (c < n) }
    ensures { (g : Matrix) → Holds m n g h.now → result ≡ below m (lowest (λ i. not (eqb (g i c) 0)) (m - r) r) }
{
    (r..m).find(|p| h[*p * 256 + c] != 0)
}

// Exchanges rows r and p, two places of one part. Tried, slower: with the library's `swap` in place of the three assignments, which become vector code, a whole elimination took up to 1.4 times as long.
pub fn swap_rows(h: &mut [u8], n: usize, r: usize, p: usize)
    requires { (length h.old ≡ 65536) × (n ≤ 256) × (r < 256) × (p < 256) }
    ensures { (m : ℕ) (g : Matrix) → r < m → p < m → Holds m n g h.old → Holds m n (swapped r p g) h.new }
{
    for j in 0..n {
        let x = h[r * 256 + j];
        h[r * 256 + j] = h[p * 256 + j];
        h[p * 256 + j] = x;
    }
}

// A row times f.
pub fn scale_row(row: &mut [u8], f: u8)
    ensures { row.new ≡ map (product f) row.old }
{
    let fs = Multiples::of(f);
    for x in row.iter_mut() {
        *x = fs.times(*x);
    }
}

// f times another row added to a row. The other one stands beside the matrix: of two rows of the matrix itself the compiler could not tell its reads from the writes,
// and would use no vectors.
pub fn add_row(row: &mut [u8], other: &[u8], f: u8)
    requires { length other.now ≡ length row.old }
    ensures { row.new ≡ plus (length row.old) f (nth other.now) row.old }
{
    let fs = Multiples::of(f);
    for (j, x) in row.iter_mut().enumerate() {
        *x ^= fs.times(other[j]);
    }
}
