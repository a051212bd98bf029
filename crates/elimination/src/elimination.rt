// Gauss-Jordan elimination of a matrix that stands in 65,536 entries, with rows of 256. A project rule, no heap: the part is lent and of a fixed length, so m and n
// stand beside it.
ghost use Rattle.std.specs.Prelude.{◌≡◌, List, ℕ, ◌<◌, ◌≤◌, length};
ghost use Rattle.lists.specs.Entry.{nth};
ghost use Rattle.elimination.specs.Matrix.{Matrix};
ghost use Rattle.elimination.specs.Elimination.{State, cleared, column_turn, eliminated};
ghost use Rattle.elimination.specs.Standing.{Holds, Stands, plus};

use crate::matrix_rows::{add_row, find_row, scale_row, swap_rows};
use field::gf::inv;

// Makes a row 0 in column c by the pivot's row, which has 1 there. Most rows are 0 there already.
fn clear_row(row: &mut [u8], pivot: &[u8], c: usize)
    requires { (length pivot.now ≡ length row.old) × (c < length row.old) }
    ensures { row.new ≡ plus (length row.old) (nth row.old c) (nth pivot.now) row.old }
{
    let f = row[c];
    if f != 0 {
        add_row(row, pivot, f);
    }
}

// Makes column c 1 in row r and 0 in every other row. No plainer as a struct: r and c are a place, and n and m say how much of the whole part is used.
fn clear_column(h: &mut [u8], n: usize, m: usize, r: usize, c: usize)
    requires { (length h.old ≡ 65536) × (n ≤ 256) × (m ≤ 256) × (r < m) × (c < n) }
    ensures { (g : Matrix) → Holds m n g h.old → Holds m n (cleared r c g) h.new }
{
    let v = inv(h[r * 256 + c]);
    scale_row(&mut h[r * 256..r * 256 + n], v);
    let mut pivot = [0u8; 256];
    pivot.copy_from_slice(&h[r * 256..r * 256 + 256]);
    // Tried, not proved: of `h.chunks_exact_mut(256).take(m).enumerate()` the check knows no chunk's length, so that `&mut row[..n]` stays open.
    for i in 0..m {
        if i != r {
            clear_row(&mut h[i * 256..i * 256 + n], &pivot[..n], c);
        }
    }
}

// Column c: its pivot, if it has one, goes to row r. Answers the rank after it. No plainer without r: it is the rank before, no length of `parity`.
fn pivot_column(h: &mut [u8], parity: &mut [u16], n: usize, m: usize, r: usize, c: usize) -> usize
    requires { (length h.old ≡ 65536) × (length parity.old ≡ 256) × (n ≤ 256) × (m ≤ 256) × (c < n) }
    ensures { (s : State) (part : List ℕ) → length part ≡ 256 → Stands m n s part h.old parity.old r → Stands m n (column_turn m c s) part h.new parity.new result }
{
    match find_row(h, n, m, r, c) {
        None => r,
        Some(p) => {
            swap_rows(h, n, r, p);
            clear_column(h, n, m, r, c);
            parity[r] = c as u16;
            r + 1
        }
    }
}

// All columns in the given order. Answers the rank.
pub fn eliminate(n: usize, m: usize, order: &[u16], h: &mut [u8], parity: &mut [u16]) -> usize
    requires n_bound { (n ≤ 256) × (m ≤ 256) × (length order.now ≡ 256) × (length h.old ≡ 65536) × (length parity.old ≡ 256) }
    requires by_index { (t : ℕ) → t < n → nth order.now t < n }
    ensures { (g : Matrix) → Holds m n g h.old → Stands m n (eliminated m (nth order.now) g n) parity.old h.new parity.new result }
{
    let mut r = 0;
    for c in &order[..n] {
        r = pivot_column(h, parity, n, m, r, *c as usize);
    }
    r
}
