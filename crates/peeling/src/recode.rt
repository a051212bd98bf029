// The encoder of a code in a new column order.
ghost use Rattle.std.specs.Prelude.{◌≡◌, length, replicate};
ghost use Rattle.lists.specs.Values.{values};
ghost use Rattle.calls.specs.Parts.{padded};
ghost use Rattle.elimination.specs.Elimination.{reduced, infos, table};
ghost use Rattle.elimination.specs.Encodable.{Encodable};
ghost use Rattle.elimination.specs.Held.{held};

use elimination::encoder::build_encoder;

// Parity, information and table as elimination gives them, in the place of what stood there. Answers the rank. The matrix is left 0.
// No plainer: three of the parts are written over, and a `Lent` only reads.
pub fn recode(
    n: usize,
    m: usize,
    var: &[u16],
    coef: &[u8],
    row: &[u16],
    order: &[u16],
    h: &mut [u8],
    parity: &mut [u16],
    info: &mut [u16],
    a: &mut [u8],
) -> usize
    requires encodable { Encodable n m var.now coef.now row.now order.now }
    requires h_len { (length h.old ≡ 65536) × (length parity.old ≡ 256) × (length info.old ≡ 256) × (length a.old ≡ 16384) }
    ensures { (result ≡ (reduced (held n m var.now coef.now row.now) order.now).rank)
        × (parity.new ≡ padded 256 0 (values (reduced (held n m var.now coef.now row.now) order.now).rank (reduced (held n m var.now coef.now row.now) order.now).pivot))
        × (info.new ≡ padded 256 0 (infos n (reduced (held n m var.now coef.now row.now) order.now)))
        × (a.new ≡ padded 16384 0 (table n (reduced (held n m var.now coef.now row.now) order.now)))
        × (h.new ≡ replicate (length h.old) 0) }
{
    parity.fill(0);
    info.fill(0);
    a.fill(0);
    let rank = build_encoder(n, m, var, coef, row, order, h, parity, info, a);
    h.fill(0);
    rank
}
