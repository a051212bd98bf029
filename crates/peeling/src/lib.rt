// Peeling of a lent code, and the code in the column order that it gives: the second information set.
#![tactic(auto)]

ghost use Rattle.std.specs.Prelude.{◌≡◌, length};
ghost use Rattle.calls.specs.Refusal.{first_of, answered};
ghost use Rattle.calls.specs.Parts.{worked, written};
ghost use Rattle.graph.specs.Parts.{Parts, lent};
ghost use Rattle.peeling.specs.PeelPicks.{peel_picks_refusals, picked, picks_part};
ghost use Rattle.peeling.specs.Promise.{Promised};
ghost use Rattle.peeling.specs.WithPeeledInfo.{peeled_refusals, peeled_code, peeled_parts};

use best::Tie;
use calls::Refusal;
use edges::Edges;
use graph::Code;
use lent::{Lent, Sound};

pub mod best;
pub mod code;
mod edges;
mod freed;
mod order;
mod peel;
mod recode;
mod unknowns;

// Of equal picks the last: the source's `max_by_key` keeps it.
const TIE: Tie = Tie::Last;

// The picks, to the front of a part of n. Answers how many they are.
fn lay_picks(code: &Sound, prefer: &[i64], picks: &mut [u16]) -> usize
    requires { (length prefer.now ≡ code.now.code.n) × (length picks.old ≡ code.now.code.n) }
    ensures value { result ≡ length (picked code.now prefer.now) }
    ensures picks_after { picks.new ≡ picks_part code.now prefer.now }
{
    let lent = code.lent;
    let edges = Edges {
        n: lent.numbers.n,
        m: lent.numbers.m,
        var: lent.var,
        row: lent.row,
        start: lent.start,
        col: lent.col,
    };
    picks.fill(0);
    peel::peel(&edges, TIE, prefer, picks)
}

// The symbols that peeling picks, in order, to the front of `picks`. Answers how many they are.
pub fn peel_picks(
    code: &Lent,
    prefer: &[i64],
    picks: &mut [u16],
    h: &mut [u8],
    pivots: &mut [u16],
) -> Result<usize, Refusal>
    ensures answer { result ≡ answered (first_of (peel_picks_refusals code.now prefer.now (length picks.old) (length h.old) (length pivots.old))) (length (picked code.now prefer.now)) }
    ensures picks_after { picks.new ≡ written result picks.old (picks_part code.now prefer.now) }
    ensures h_after { h.new ≡ worked result 0 h.old }
    ensures pivots_after { pivots.new ≡ worked result 0 pivots.old }
{
    let misfit = (prefer.len() != code.numbers.n) | (picks.len() != code.numbers.n);
    let sound = code.accepted(h, pivots, misfit)?;
    Ok(lay_picks(&sound, prefer, picks))
}

// The lent code with its information positions chosen by peeling: the graph's parts as they are, the others written over.
// No plainer: four of the parts are written over, and a `Lent` only reads.
pub fn with_peeled_info(
    code: Code,
    var: &[u16],
    coef: &[u8],
    row: &[u16],
    start: &[u16],
    col: &[u16],
    order: &mut [u16],
    parity: &mut [u16],
    info: &mut [u16],
    a: &mut [u8],
    prefer: &[i64],
    h: &mut [u8],
    pivots: &mut [u16],
) -> Result<Code, Refusal>
    ensures answer { let given = lent var.now coef.now row.now start.now col.now order.old parity.old info.old a.old in
        result ≡ answered (first_of (peeled_refusals code given prefer.now (length h.old) (length pivots.old))) (peeled_code code given prefer.now) }
    ensures code_after { let given = lent var.now coef.now row.now start.now col.now order.old parity.old info.old a.old in
        ◌≡◌ {A = Parts} (lent var.now coef.now row.now start.now col.now order.new parity.new info.new a.new) (written result given (peeled_parts code given prefer.now)) }
    ensures h_after { h.new ≡ worked result 0 h.old }
    ensures pivots_after { pivots.new ≡ worked result 0 pivots.old }
{
    let given = Lent {
        numbers: code,
        var,
        coef,
        row,
        start,
        col,
        order: &*order,
        parity: &*parity,
        info: &*info,
        a: &*a,
    };
    given.accepted(h, pivots, prefer.len() != code.n)?;
    Ok(code::peeled(
        TIE, code, var, coef, row, start, col, order, parity, info, a, prefer, h,
    ))
}

// What is promised of peeling: a promise alone, and no code.
pub fn promise()
    ensures { Promised }
{}
