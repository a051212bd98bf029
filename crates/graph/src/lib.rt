// Codes and the building of one. The public calls of document 01's part 2 stand here; each is turned down by number and leaves its lent parts as its definition says.
#![tactic(auto)]

ghost use Rattle.std.specs.Prelude.{◌≡◌};
ghost use Rattle.lists.specs.Values.{values};
ghost use Rattle.calls.specs.Refusal.{first_of, answered};
ghost use Rattle.calls.specs.Parts.{worked, written};
ghost use Rattle.graph.specs.EvenDegrees.{even_degree, even_refusals};
ghost use Rattle.graph.specs.Parts.{Parts, parts, lent};
ghost use Rattle.graph.specs.Descending.{descending};
ghost use Rattle.graph.specs.Built.{built};
ghost use Rattle.graph.specs.New.{numbers, new_refusals, lent_work};

use calls::Refusal;

pub mod build;
mod degrees;
mod edges;
pub mod refusals;

// The numbers of a code; its parts are lent beside them.
#[derive(Clone, Copy, Debug, PartialEq, Eq)]
pub struct Code {
    pub n: usize,
    pub m: usize,
    pub edges: usize,
    pub rank: usize,
}

// Spreads e edges over n variables as evenly as can be.
pub fn even_degrees(n: usize, e: usize, degrees: &mut [usize]) -> Result<(), Refusal>
    ensures answer { result ≡ answered (first_of (even_refusals n degrees.old)) tt }
    ensures degrees_after { degrees.new ≡ written result degrees.old (values n (even_degree n e)) }
{
    if n > 256 {
        return Err(Refusal::Size);
    }
    if degrees.len() != n {
        return Err(Refusal::Length);
    }
    degrees::spread(e, degrees);
    Ok(())
}

// Builds a code of n symbols and m checks whose variables have the given degrees, by progressive edge growth from the seed. chk, load, own and deg are work parts.
// The C interface has the parts one by one. `new_given` (lent/proofs/NotRefused.antt) says of the clauses that no call refuses the code where the parts are left as they are.
pub fn new(
    n: usize,
    m: usize,
    seed: u64,
    degrees: &[usize],
    var: &mut [u16],
    coef: &mut [u8],
    row: &mut [u16],
    start: &mut [u16],
    col: &mut [u16],
    order: &mut [u16],
    parity: &mut [u16],
    info: &mut [u16],
    a: &mut [u8],
    chk: &mut [u8],
    load: &mut [u16],
    own: &mut [u8],
    deg: &mut [u16],
) -> Result<Code, Refusal>
    ensures answer { result ≡ answered
        (first_of (new_refusals n m degrees.now
        (lent var.old coef.old row.old start.old col.old order.old parity.old info.old a.old)
        (lent_work chk.old load.old own.old deg.old)))
        (numbers (built n m degrees.now seed) (descending n)) }
    ensures code_after { ◌≡◌ {A = Parts} (lent var.new coef.new row.new start.new col.new order.new parity.new info.new a.new)
        (written result (lent var.old coef.old row.old start.old col.old order.old parity.old info.old a.old)
        (parts (built n m degrees.now seed) (descending n))) }
    ensures chk_after { chk.new ≡ worked result 0 chk.old }
    ensures load_after { load.new ≡ worked result 0 load.old }
    ensures own_after { own.new ≡ worked result 0 own.old }
    ensures deg_after { deg.new ≡ worked result 0 deg.old }
{
    let work = refusals::work_misfit(chk.len(), load.len(), own.len(), deg.len(), false);
    let code = refusals::code_misfit(
        var.len(),
        coef.len(),
        row.len(),
        start.len(),
        col.len(),
        order.len(),
        parity.len(),
        info.len(),
        a.len(),
        work,
    );
    refusals::early(n, m, (degrees.len() != n) | code)?;
    if let Err(refusal) = refusals::bad_degrees(m, degrees) {
        build::clear_work(chk, load, own, deg);
        return Err(refusal);
    }
    let built = build::build(
        n, m, seed, degrees, var, coef, row, start, col, order, parity, info, a, chk, load, own,
        deg,
    );
    build::clear_work(chk, load, own, deg);
    Ok(built)
}
