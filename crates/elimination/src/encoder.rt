// The encoder of a code: its check matrix, eliminated, gives the parity positions, the information positions and the table of factors.
ghost use Rattle.std.specs.Prelude.{◌≡◌, ℕ, ◌+◌, ◌*◌, ◌<◌, ◌≤◌, length};
ghost use mathlib.Core.List.{foldl};
ghost use Rattle.lists.specs.Chain.{chain};
ghost use Rattle.lists.specs.Changed.{changed};
ghost use Rattle.lists.specs.Entry.{nth};
ghost use Rattle.lists.specs.Laid.{laid, laid_from};
ghost use Rattle.lists.specs.Values.{values};
ghost use Rattle.elimination.specs.Matrix.{Matrix, entry_turn, matrix_of};
ghost use Rattle.elimination.specs.Elimination.{reduced, infos, table};
ghost use Rattle.elimination.specs.Held.{edges_in, held};
ghost use Rattle.elimination.specs.Encodable.{Graphed, Encodable};
ghost use Rattle.elimination.specs.Standing.{Holds};

use crate::elimination::eliminate;
use crate::positions::others;

// Adds a check's edges to its row.
fn add_check(row: &mut [u8], var: &[u16], coef: &[u8])
    requires { (length coef.now ≡ length var.now) × ((e : ℕ) → e < length var.now → nth var.now e < length row.old) }
    ensures { (j : ℕ) → j < length row.old → nth row.new j ≡ foldl (entry_turn j) (nth row.old j) (edges_in var.now coef.now 0 (length var.now)) }
{
    for (e, v) in var.iter().enumerate() {
        row[*v as usize] ^= coef[e];
    }
}

// The check matrix.
pub fn matrix(m: usize, var: &[u16], coef: &[u8], row: &[u16], h: &mut [u8])
    requires graphed { Graphed m var.now coef.now row.now }
    requires h_len { length h.old ≡ 65536 }
    ensures { (n : ℕ) → n ≤ 256 → Holds m n (matrix_of (held n m var.now coef.now row.now)) h.new }
{
    h.fill(0);
    // No plainer: row[i] and row[i + 1] are read, and row i of h is written.
    for i in 0..m {
        let from = row[i] as usize;
        let to = row[i + 1] as usize;
        add_check(
            &mut h[i * 256..i * 256 + 256],
            &var[from..to],
            &coef[from..to],
        );
    }
}

// A row of the table: a row of the matrix at the information positions. No plainer as one with `gather` of words: it fills a whole row, that one the front of a part.
fn table_row(row: &[u8], info: &[u16], a: &mut [u8])
    requires { (length a.old ≡ length info.now) × ((t : ℕ) → t < length info.now → nth info.now t < length row.now) }
    ensures { a.new ≡ values (length info.now) (λ t. nth row.now (nth info.now t)) }
{
    for (t, j) in info.iter().enumerate() {
        a[t] = row[*j as usize];
    }
}

// The table: a row for each of the r pivots. No plainer without r: h holds all rows, and the first r of them are read.
fn table(r: usize, h: &[u8], info: &[u16], a: &mut [u8])
    requires r_bound { (r ≤ 256) × (length h.now ≡ 65536) × (length info.now ≤ 256) × (length a.old ≡ 16384) × (r * length info.now ≤ 16384) }
    requires by_index { (t : ℕ) → t < length info.now → nth info.now t < 256 }
    ensures { a.new ≡ laid (chain r (λ i. values (length info.now) (λ t. nth h.now (i * 256 + nth info.now t)))) a.old }
{
    let k = info.len();
    // No plainer: row i of one is read and of the other written, and `chunks_exact_mut(k)` would refuse the k = 0 of a code without information positions.
    for i in 0..r {
        table_row(&h[i * 256..i * 256 + 256], info, &mut a[i * k..i * k + k]);
    }
}

// The parity positions, the information positions and the table, each to the front of its part. Answers the rank. What `h` holds does not matter. The C interface has the parts one
// by one, and three of them are written.
pub fn build_encoder(
    n: usize,
    m: usize,
    var: &[u16],
    coef: &[u8],
    row: &[u16],
    order: &[u16],
    h: &mut [u8],
    parity: &mut [u16],
    info: &mut [u16],
    a: &mut [u8],
) -> usize
    requires encodable { Encodable n m var.now coef.now row.now order.now }
    requires h_len { (length h.old ≡ 65536) × (length parity.old ≡ 256) × (length info.old ≡ 256) × (length a.old ≡ 16384) }
    ensures { (result ≡ (reduced (held n m var.now coef.now row.now) order.now).rank)
        × (parity.new ≡ laid (values (reduced (held n m var.now coef.now row.now) order.now).rank (reduced (held n m var.now coef.now row.now) order.now).pivot) parity.old)
        × (info.new ≡ laid (infos n (reduced (held n m var.now coef.now row.now) order.now)) info.old)
        × (a.new ≡ laid (table n (reduced (held n m var.now coef.now row.now) order.now)) a.old) }
{
    matrix(m, var, coef, row, h);
    let r = eliminate(n, m, order, h, parity);
    let k = others(n, &parity[..r], info);
    table(r, h, &info[..k], a);
    r
}
