// The code in the order that peeling gives.
ghost use Rattle.std.specs.Prelude.{◌≡◌, length, replicate};
ghost use Rattle.graph.specs.Parts.{Parts, lent};
ghost use Rattle.lent.specs.Sound.{IsSound};
ghost use Rattle.peeling.specs.Best.{is_last};
ghost use Rattle.peeling.specs.WithPeeledInfo.{order_of, code_in, parts_in};

use crate::best::Tie;
use crate::edges::Edges;
use crate::{order, recode};
use graph::Code;

// A sound code in the order that peeling gives: the graph's parts as they are, the others written over. The matrix is left 0.
// No plainer: four of the parts are written over, and a `Lent` only reads.
pub fn peeled(
    tie: Tie,
    code: Code,
    var: &[u16],
    coef: &[u8],
    row: &[u16],
    start: &[u16],
    col: &[u16],
    order: &mut [u16],
    parity: &mut [u16],
    info: &mut [u16],
    a: &mut [u8],
    prefer: &[i64],
    h: &mut [u8],
) -> Code
    requires sound { IsSound code (lent var.now coef.now row.now start.now col.now order.old parity.old info.old a.old) }
    requires lengths { (length prefer.now ≡ code.n) × (length h.old ≡ 65536) }
    ensures value { let given = lent var.now coef.now row.now start.now col.now order.old parity.old info.old a.old in
        result ≡ code_in code given (order_of (is_last tie) code given prefer.now) }
    ensures code_after { let given = lent var.now coef.now row.now start.now col.now order.old parity.old info.old a.old in
        ◌≡◌ {A = Parts} (lent var.now coef.now row.now start.now col.now order.new parity.new info.new a.new) (parts_in code given (order_of (is_last tie) code given prefer.now)) }
    ensures h_after { h.new ≡ replicate (length h.old) 0 }
{
    let edges = Edges {
        n: code.n,
        m: code.m,
        var,
        row,
        start,
        col,
    };
    order::reorder(&edges, tie, prefer, order);
    let rank = recode::recode(code.n, code.m, var, coef, row, order, h, parity, info, a);
    Code {
        n: code.n,
        m: code.m,
        edges: code.edges,
        rank,
    }
}
