// The exported calls that peel a lent code. The code's numbers come first, then its parts; `h` and `pivots` are work parts. The C interface has them one by one.
ghost use Rattle.std.specs.Prelude.{◌≡◌, length};
ghost use Rattle.calls.specs.Refusal.{first_of, answered, answer_number};
ghost use Rattle.calls.specs.Parts.{worked, written};
ghost use Rattle.graph.specs.Parts.{Parts, lent};
ghost use Rattle.peeling.specs.PeelPicks.{peel_picks_refusals, picked, picks_part};
ghost use Rattle.peeling.specs.WithPeeledInfo.{peeled_refusals, peeled_code, peeled_parts};
ghost use Rattle.abi.specs.Held.{code_of, held_of};

use crate::{found, lent_code};
use graph::Code;

// The symbols that peeling picks, in order, and how many they are.
#[unsafe(no_mangle)]
pub extern "C" fn hazgunek_peel_picks(
    n: usize,
    m: usize,
    edges: usize,
    rank: usize,
    var: &[u16],
    coef: &[u8],
    row: &[u16],
    start: &[u16],
    col: &[u16],
    order: &[u16],
    parity: &[u16],
    info: &[u16],
    a: &[u8],
    prefer: &[i64],
    count: &mut usize,
    picks: &mut [u16],
    h: &mut [u8],
    pivots: &mut [u16],
) -> u8
    ensures { let l = held_of n m edges rank var.now coef.now row.now start.now col.now order.now parity.now info.now a.now in
        let answer = answered (first_of (peel_picks_refusals l prefer.now (length picks.old) (length h.old) (length pivots.old))) (length (picked l prefer.now))
        in (result ≡ answer_number answer)
        × (count.new ≡ written answer count.old (length (picked l prefer.now)))
        × (picks.new ≡ written answer picks.old (picks_part l prefer.now))
        × (h.new ≡ worked answer 0 h.old)
        × (pivots.new ≡ worked answer 0 pivots.old) }
{
    let code = lent_code(
        n, m, edges, rank, var, coef, row, start, col, order, parity, info, a,
    );
    found(peeling::peel_picks(&code, prefer, picks, h, pivots), count)
}

// The code in the column order that peeling gives: its rank and the four parts that follow from the order are written over.
#[unsafe(no_mangle)]
pub extern "C" fn hazgunek_with_peeled_info(
    n: usize,
    m: usize,
    edges: usize,
    rank: &mut usize,
    var: &[u16],
    coef: &[u8],
    row: &[u16],
    start: &[u16],
    col: &[u16],
    order: &mut [u16],
    parity: &mut [u16],
    info: &mut [u16],
    a: &mut [u8],
    prefer: &[i64],
    h: &mut [u8],
    pivots: &mut [u16],
) -> u8
    ensures { let code = code_of n m edges rank.old in
        let given = lent var.now coef.now row.now start.now col.now order.old parity.old info.old a.old in
        let answer = answered (first_of (peeled_refusals code given prefer.now (length h.old) (length pivots.old))) (peeled_code code given prefer.now)
        in (result ≡ answer_number answer)
        × (rank.new ≡ written answer rank.old (peeled_code code given prefer.now).rank)
        × (◌≡◌ {A = Parts} (lent var.now coef.now row.now start.now col.now order.new parity.new info.new a.new) (written answer given (peeled_parts code given prefer.now)))
        × (h.new ≡ worked answer 0 h.old)
        × (pivots.new ≡ worked answer 0 pivots.old) }
{
    let code = Code {
        n,
        m,
        edges,
        rank: *rank,
    };
    match peeling::with_peeled_info(
        code, var, coef, row, start, col, order, parity, info, a, prefer, h, pivots,
    ) {
        Ok(peeled) => {
            *rank = peeled.rank;
            0
        }
        Err(refusal) => refusal.number(),
    }
}
