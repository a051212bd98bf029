// The exported calls: each public call as a C function, declared in include/hazgunek.h. Each answers the number by which it turned the call down, 0 where
// it did not, and leaves what it found in lent parts. The C interface has a code's numbers and parts one by one.
#![tactic(auto)]

ghost use Rattle.std.specs.Prelude.{◌≡◌, length};
ghost use Rattle.std.specs.Result.{result_unwrap_or};
ghost use Rattle.lists.specs.Values.{values};
ghost use Rattle.calls.specs.Refusal.{first_of, answered, answer_number};
ghost use Rattle.calls.specs.Parts.{worked, written};
ghost use Rattle.field.specs.Field.{product as field_product, inverse as field_inverse};
ghost use Rattle.field.specs.SplitMix64.{after, drawn};
ghost use Rattle.graph.specs.EvenDegrees.{even_degree, even_refusals};
ghost use Rattle.graph.specs.Parts.{Parts, parts, lent};
ghost use Rattle.lent.specs.Held.{Held};
ghost use Rattle.graph.specs.Descending.{descending};
ghost use Rattle.graph.specs.Built.{built};
ghost use Rattle.graph.specs.New.{numbers, new_refusals, lent_work};
ghost use Rattle.abi.specs.Field.{mul_refusals, inv_refusals};
ghost use Rattle.abi.specs.Held.{held_of};

use calls::Refusal;
use decoders::Decoding;
use field::gf;
use field::splitmix64::SplitMix64;
use graph::Code;
use lent::Lent;

mod decoder_calls;
mod frame_calls;
mod on_code;
mod peeling_calls;
mod rate_calls;

// The number of an answer, 0 where the call was not turned down. No plainer as a `From`: neither type is this crate's.
fn number_of(answer: Result<(), Refusal>) -> u8
    ensures { result ≡ answer_number answer }
{
    match answer {
        Ok(()) => 0,
        Err(refusal) => refusal.number(),
    }
}

// Leaves the number that a call found, and answers the refusal's.
fn found(answer: Result<usize, Refusal>, place: &mut usize) -> u8
    ensures number { result ≡ answer_number answer }
    ensures place_after { place.new ≡ result_unwrap_or answer place.old }
{
    match answer {
        Ok(value) => {
            *place = value;
            0
        }
        Err(refusal) => refusal.number(),
    }
}

// Leaves a decoding's count of rounds, and answers the refusal's number.
fn decoded(decoding: Decoding, rounds: &mut u32) -> u8
    ensures number { result ≡ answer_number decoding.answer }
    ensures rounds_after { rounds.new ≡ decoding.rounds }
{
    *rounds = decoding.rounds;
    number_of(decoding.answer)
}

// A lent code of its numbers and its parts.
fn lent_code<'a>(
    n: usize,
    m: usize,
    edges: usize,
    rank: usize,
    var: &'a [u16],
    coef: &'a [u8],
    row: &'a [u16],
    start: &'a [u16],
    col: &'a [u16],
    order: &'a [u16],
    parity: &'a [u16],
    info: &'a [u16],
    a: &'a [u8],
) -> Lent<'a>
    ensures { ◌≡◌ {A = Held} result (held_of n m edges rank var.now coef.now row.now start.now col.now order.now parity.now info.now a.now) }
{
    Lent {
        numbers: Code { n, m, edges, rank },
        var,
        coef,
        row,
        start,
        col,
        order,
        parity,
        info,
        a,
    }
}

#[unsafe(no_mangle)]
pub extern "C" fn hazgunek_mul(a: u8, b: u8, product: &mut u8) -> u8
    ensures { let answer = answered (first_of (mul_refusals a b)) (field_product a b)
        in (result ≡ answer_number answer)
        × (product.new ≡ written answer product.old (field_product a b)) }
{
    if (a > 31) | (b > 31) {
        return Refusal::Value.number();
    }
    *product = gf::mul(a, b);
    0
}

#[unsafe(no_mangle)]
pub extern "C" fn hazgunek_inv(a: u8, inverse: &mut u8) -> u8
    ensures { let answer = answered (first_of (inv_refusals a)) (field_inverse a)
        in (result ≡ answer_number answer)
        × (inverse.new ≡ written answer inverse.old (field_inverse a)) }
{
    if (a == 0) | (a > 31) {
        return Refusal::Value.number();
    }
    *inverse = gf::inv(a);
    0
}

#[unsafe(no_mangle)]
pub extern "C" fn hazgunek_draws(state: &mut u64, draws: &mut [u64]) -> u8
    ensures { (result ≡ 0) × (state.new ≡ after (length draws.old) state.old) × (draws.new ≡ drawn (length draws.old) state.old) }
{
    let mut generator = SplitMix64 { state: *state };
    generator.draws(draws);
    *state = generator.state;
    0
}

#[unsafe(no_mangle)]
pub extern "C" fn hazgunek_even_degrees(n: usize, e: usize, degrees: &mut [usize]) -> u8
    ensures { let answer = answered (first_of (even_refusals n degrees.old)) (tt {0})
        in (result ≡ answer_number answer)
        × (degrees.new ≡ written answer degrees.old (values n (even_degree n e))) }
{
    number_of(graph::even_degrees(n, e, degrees))
}

#[unsafe(no_mangle)]
pub extern "C" fn hazgunek_new(
    n: usize,
    m: usize,
    seed: u64,
    degrees: &[usize],
    edges: &mut usize,
    rank: &mut usize,
    var: &mut [u16],
    coef: &mut [u8],
    row: &mut [u16],
    start: &mut [u16],
    col: &mut [u16],
    order: &mut [u16],
    parity: &mut [u16],
    info: &mut [u16],
    a: &mut [u8],
    chk: &mut [u8],
    load: &mut [u16],
    own: &mut [u8],
    deg: &mut [u16],
) -> u8
    ensures { let given = lent var.old coef.old row.old start.old col.old order.old parity.old info.old a.old in
        let graph = built n m degrees.now seed in
        let answer = answered (first_of (new_refusals n m degrees.now given (lent_work chk.old load.old own.old deg.old))) (numbers graph (descending n))
        in (result ≡ answer_number answer)
        × (edges.new ≡ written answer edges.old (numbers graph (descending n)).edges)
        × (rank.new ≡ written answer rank.old (numbers graph (descending n)).rank)
        × (◌≡◌ {A = Parts} (lent var.new coef.new row.new start.new col.new order.new parity.new info.new a.new) (written answer given (parts graph (descending n))))
        × (chk.new ≡ worked answer 0 chk.old)
        × (load.new ≡ worked answer 0 load.old)
        × (own.new ≡ worked answer 0 own.old)
        × (deg.new ≡ worked answer 0 deg.old) }
{
    match graph::new(
        n, m, seed, degrees, var, coef, row, start, col, order, parity, info, a, chk, load, own,
        deg,
    ) {
        Ok(code) => {
            *edges = code.edges;
            *rank = code.rank;
            0
        }
        Err(refusal) => refusal.number(),
    }
}
