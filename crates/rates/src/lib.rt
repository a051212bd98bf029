// Rates, and the code of each for either information set. A rate is a record: only the public calls take one by its number.
#![tactic(auto)]

ghost use Rattle.std.specs.Prelude.{◌≡◌, length};
ghost use Rattle.calls.specs.Refusal.{first_of, answered};
ghost use Rattle.calls.specs.Parts.{worked, written};
ghost use Rattle.graph.specs.Parts.{Parts, lent};
ghost use Rattle.rates.specs.Rate.{rate_of, rate_degrees};
ghost use Rattle.rates.specs.RateCode.{set_of, rate_code};
ghost use Rattle.rates.specs.NFor.{rate_refusals};
ghost use Rattle.rates.specs.DegreesFor.{degrees_for_refusals};
ghost use Rattle.rates.specs.CodeAt.{code_at_refusals};
ghost use Rattle.rates.specs.Promise.{Promised};

use calls::Refusal;
use field::tables::degree_row;
use graph::{Code, refusals};

mod build;
mod degrees;
pub mod slices;

// n symbols and n - 52 checks; the first `heavy` positions have the degree `degree`, the others 2. The graph grows from `seed`.
#[derive(Clone, Copy, Debug, PartialEq, Eq)]
pub struct Rate {
    pub n: usize,
    pub heavy: usize,
    pub degree: usize,
    pub seed: u64,
}

// Which positions carry the information symbols; the words are the same.
#[derive(Clone, Copy, Debug, PartialEq, Eq)]
pub enum InfoSet {
    Echelon,
    Peeled,
}

// From which the graph of each of the four rates grows.
const SEED: u64 = 0x4E42_4C44_5043;

impl Rate {
    ghost use Rattle.std.specs.Prelude.{◌≡◌};
    ghost use Rattle.calls.specs.Refusal.{first_of, answered};
    ghost use Rattle.rates.specs.Rate.{rate_of};
    ghost use Rattle.rates.specs.NFor.{rate_refusals};

    // Rates 1/4, 1/3, 1/2 and 2/3 by their numbers, 0 to 3.
    pub fn of(rate: usize) -> Result<Rate, Refusal>
        ensures { result ≡ answered (first_of (rate_refusals rate)) (rate_of rate) }
    {
        if rate > 3 {
            return Err(Refusal::RateOrLayout);
        }
        let row = degree_row(rate);
        Ok(Rate {
            n: row.n,
            heavy: row.heavy,
            degree: row.degree,
            seed: SEED,
        })
    }
}

impl InfoSet {
    ghost use Rattle.std.specs.Prelude.{◌≡◌};
    ghost use Rattle.calls.specs.Refusal.{first_of, answered};
    ghost use Rattle.rates.specs.RateCode.{set_of};
    ghost use Rattle.rates.specs.CodeAt.{set_refusals};

    // By its number, 0 or 1.
    pub fn of(set: usize) -> Result<InfoSet, Refusal>
        ensures { result ≡ answered (first_of (set_refusals set)) (set_of set) }
    {
        match set {
            0 => Ok(InfoSet::Echelon),
            1 => Ok(InfoSet::Peeled),
            _ => Err(Refusal::RateOrLayout),
        }
    }
}

// How many symbols a word of the rate has.
pub fn n_for(rate: usize) -> Result<usize, Refusal>
    ensures { result ≡ answered (first_of (rate_refusals rate)) (rate_of rate).n }
{
    let rate = Rate::of(rate)?;
    Ok(rate.n)
}

// The degrees of the rate's positions.
pub fn degrees_for(rate: usize, degrees: &mut [usize]) -> Result<(), Refusal>
    ensures answer { result ≡ answered (first_of (degrees_for_refusals rate (length degrees.old))) tt }
    ensures degrees_after { degrees.new ≡ written result degrees.old (rate_degrees (rate_of rate)) }
{
    let rate = Rate::of(rate)?;
    if degrees.len() != rate.n {
        return Err(Refusal::Length);
    }
    degrees::lay(rate, degrees);
    Ok(())
}

// The code of a rate for an information set. `words` and `bytes` are work parts. The C interface has the parts one by one.
pub fn code_at(
    rate: usize,
    set: usize,
    var: &mut [u16],
    coef: &mut [u8],
    row: &mut [u16],
    start: &mut [u16],
    col: &mut [u16],
    order: &mut [u16],
    parity: &mut [u16],
    info: &mut [u16],
    a: &mut [u8],
    words: &mut [u16],
    bytes: &mut [u8],
) -> Result<Code, Refusal>
    ensures answer { result ≡ answered
        (first_of (code_at_refusals rate set
        (lent var.old coef.old row.old start.old col.old order.old parity.old info.old a.old)
        (length words.old) (length bytes.old)))
        (rate_code (rate_of rate) (set_of set)).code }
    ensures code_after { ◌≡◌ {A = Parts} (lent var.new coef.new row.new start.new col.new order.new parity.new info.new a.new)
        (written result (lent var.old coef.old row.old start.old col.old order.old parity.old info.old a.old)
        (rate_code (rate_of rate) (set_of set)).parts) }
    ensures words_after { words.new ≡ worked result 0 words.old }
    ensures bytes_after { bytes.new ≡ worked result 0 bytes.old }
{
    let rate = Rate::of(rate)?;
    let set = InfoSet::of(set)?;
    let work = (words.len() != 512) | (bytes.len() != 131072);
    if refusals::code_misfit(
        var.len(),
        coef.len(),
        row.len(),
        start.len(),
        col.len(),
        order.len(),
        parity.len(),
        info.len(),
        a.len(),
        work,
    ) {
        return Err(Refusal::Length);
    }
    let (load, deg) = words.split_at_mut(256);
    let (chk, own) = bytes.split_at_mut(65536);
    let code = build::build(
        rate, set, var, coef, row, start, col, order, parity, info, a, chk, load, own, deg,
    );
    words.fill(0);
    bytes.fill(0);
    Ok(code)
}

// What is promised of rates: a promise alone, and no code.
pub fn promise()
    ensures { Promised }
{}
