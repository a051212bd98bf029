// The exported calls of the four rates. The C interface has a code's parts one by one.
ghost use Rattle.std.specs.Prelude.{◌≡◌, length};
ghost use Rattle.calls.specs.Refusal.{first_of, answered, answer_number};
ghost use Rattle.calls.specs.Parts.{worked, written};
ghost use Rattle.graph.specs.Parts.{Parts, lent};
ghost use Rattle.rates.specs.Rate.{rate_of, rate_degrees};
ghost use Rattle.rates.specs.RateCode.{set_of, rate_code};
ghost use Rattle.rates.specs.NFor.{rate_refusals};
ghost use Rattle.rates.specs.DegreesFor.{degrees_for_refusals};
ghost use Rattle.abi.specs.Answers.{code_at_answer};

use crate::{found, number_of};

// How many symbols a word of the rate has.
#[unsafe(no_mangle)]
pub extern "C" fn hazgunek_n_for(rate: usize, n: &mut usize) -> u8
    ensures number { result ≡ answer_number (answered (first_of (rate_refusals rate)) (rate_of rate).n) }
    ensures n_after { n.new ≡ written (answered (first_of (rate_refusals rate)) (rate_of rate).n) n.old (rate_of rate).n }
{
    found(rates::n_for(rate), n)
}

// The degrees of the rate's positions.
#[unsafe(no_mangle)]
pub extern "C" fn hazgunek_degrees_for(rate: usize, degrees: &mut [usize]) -> u8
    ensures number { result ≡ answer_number (answered (first_of (degrees_for_refusals rate (length degrees.old))) (tt {0})) }
    ensures degrees_after { degrees.new ≡ written (answered (first_of (degrees_for_refusals rate (length degrees.old))) (tt {0})) degrees.old (rate_degrees (rate_of rate)) }
{
    number_of(rates::degrees_for(rate, degrees))
}

// The code of a rate for an information set.
#[unsafe(no_mangle)]
pub extern "C" fn hazgunek_code_at(
    rate: usize,
    set: usize,
    n: &mut usize,
    m: &mut usize,
    edges: &mut usize,
    rank: &mut usize,
    var: &mut [u16],
    coef: &mut [u8],
    row: &mut [u16],
    start: &mut [u16],
    col: &mut [u16],
    order: &mut [u16],
    parity: &mut [u16],
    info: &mut [u16],
    a: &mut [u8],
    words: &mut [u16],
    bytes: &mut [u8],
) -> u8
    ensures number { result ≡ answer_number (code_at_answer rate set (lent var.old coef.old row.old start.old col.old order.old parity.old info.old a.old) words.old bytes.old) }
    ensures numbers_after { let answer = code_at_answer rate set (lent var.old coef.old row.old start.old col.old order.old parity.old info.old a.old) words.old bytes.old in
        let code = (rate_code (rate_of rate) (set_of set)).code
        in (n.new ≡ written answer n.old code.n)
        × (m.new ≡ written answer m.old code.m)
        × (edges.new ≡ written answer edges.old code.edges)
        × (rank.new ≡ written answer rank.old code.rank) }
    ensures code_after { let given = lent var.old coef.old row.old start.old col.old order.old parity.old info.old a.old in
        let answer = code_at_answer rate set given words.old bytes.old
        in ◌≡◌ {A = Parts} (lent var.new coef.new row.new start.new col.new order.new parity.new info.new a.new) (written answer given (rate_code (rate_of rate) (set_of set)).parts) }
    ensures words_after { words.new ≡ worked (code_at_answer rate set (lent var.old coef.old row.old start.old col.old order.old parity.old info.old a.old) words.old bytes.old) 0 words.old }
    ensures bytes_after { bytes.new ≡ worked (code_at_answer rate set (lent var.old coef.old row.old start.old col.old order.old parity.old info.old a.old) words.old bytes.old) 0 bytes.old }
{
    match rates::code_at(
        rate, set, var, coef, row, start, col, order, parity, info, a, words, bytes,
    ) {
        Ok(code) => {
            *n = code.n;
            *m = code.m;
            *edges = code.edges;
            *rank = code.rank;
            0
        }
        Err(refusal) => refusal.number(),
    }
}
