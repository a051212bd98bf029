// A code from degrees and a seed, where nothing turns the call down.
ghost use Rattle.std.specs.Prelude.{◌≡◌, length, replicate};
ghost use Rattle.lists.specs.Laid.{laid};
ghost use Rattle.elimination.specs.Graph.{edges};
ghost use Rattle.graph.specs.Parts.{Parts, parts, lent, variables, coefficients, row_starts, columns, column_starts};
ghost use Rattle.graph.specs.Descending.{descending};
ghost use Rattle.graph.specs.Built.{built};
ghost use Rattle.graph.specs.New.{numbers, lent_work};
ghost use Rattle.graph.specs.Buildable.{Buildable, PartsFit, WorkFits};

use crate::{Code, edges};
use elimination::encoder;
use field::splitmix64::SplitMix64;
use growth::peg::grow;
use growth::table::Table;

// Every entry of the work parts 0.
pub fn clear_work(chk: &mut [u8], load: &mut [u16], own: &mut [u8], deg: &mut [u16])
    ensures { (chk.new ≡ replicate (length chk.old) 0) × (load.new ≡ replicate (length load.old) 0)
        × (own.new ≡ replicate (length own.old) 0) × (deg.new ≡ replicate (length deg.old) 0) }
{
    chk.fill(0);
    load.fill(0);
    own.fill(0);
    deg.fill(0);
}

// Every entry of a code's parts 0, so that those which stay unused are. The C interface, here and below: the parts are lent flat, each by itself.
fn clear_code(
    var: &mut [u16],
    coef: &mut [u8],
    row: &mut [u16],
    start: &mut [u16],
    col: &mut [u16],
    order: &mut [u16],
    parity: &mut [u16],
    info: &mut [u16],
    a: &mut [u8],
)
    ensures { (var.new ≡ replicate (length var.old) 0) × (coef.new ≡ replicate (length coef.old) 0)
        × (row.new ≡ replicate (length row.old) 0) × (start.new ≡ replicate (length start.old) 0)
        × (col.new ≡ replicate (length col.old) 0) × (order.new ≡ replicate (length order.old) 0)
        × (parity.new ≡ replicate (length parity.old) 0) × (info.new ≡ replicate (length info.old) 0)
        × (a.new ≡ replicate (length a.old) 0) }
{
    var.fill(0);
    coef.fill(0);
    row.fill(0);
    start.fill(0);
    col.fill(0);
    order.fill(0);
    parity.fill(0);
    info.fill(0);
    a.fill(0);
}

// The graph: grown, its edges laid out check by check with a coefficient each, and listed by variable. Answers the number of edges.
fn build_graph(
    n: usize,
    m: usize,
    seed: u64,
    degrees: &[usize],
    var: &mut [u16],
    coef: &mut [u8],
    row: &mut [u16],
    start: &mut [u16],
    col: &mut [u16],
    chk: &mut [u8],
    load: &mut [u16],
    own: &mut [u8],
    deg: &mut [u16],
) -> usize
    requires buildable { Buildable n m degrees.now }
    requires var_len { (length var.old ≡ 512) × (length coef.old ≡ 512) × (length row.old ≡ 257) × (length start.old ≡ 257) × (length col.old ≡ 512) }
    requires work_fits { WorkFits (lent_work chk.old load.old own.old deg.old) }
    ensures { (result ≡ length (edges (built n m degrees.now seed)))
        × (var.new ≡ laid (variables (built n m degrees.now seed)) var.old)
        × (coef.new ≡ laid (coefficients (built n m degrees.now seed)) coef.old)
        × (row.new ≡ laid (row_starts (built n m degrees.now seed)) row.old)
        × (start.new ≡ laid (column_starts (built n m degrees.now seed)) start.old)
        × (col.new ≡ laid (columns (built n m degrees.now seed)) col.old) }
{
    load.fill(0);
    deg.fill(0);
    let mut checks = Table {
        cells: chk,
        counts: load,
    };
    let mut vars = Table {
        cells: own,
        counts: deg,
    };
    let mut generator = SplitMix64 { state: seed };
    grow(&mut checks, &mut vars, degrees, m, &mut generator);
    let count = edges::lay_checks(&checks, m, var, row);
    edges::draw_coefs(generator.state, &mut coef[..count]);
    edges::lay_columns(&var[..count], n, start, col);
    count
}

// The whole code. The matrix of the elimination takes the place of the checks' lists.
pub fn build(
    n: usize,
    m: usize,
    seed: u64,
    degrees: &[usize],
    var: &mut [u16],
    coef: &mut [u8],
    row: &mut [u16],
    start: &mut [u16],
    col: &mut [u16],
    order: &mut [u16],
    parity: &mut [u16],
    info: &mut [u16],
    a: &mut [u8],
    chk: &mut [u8],
    load: &mut [u16],
    own: &mut [u8],
    deg: &mut [u16],
) -> Code
    requires buildable { Buildable n m degrees.now }
    requires parts_fit { PartsFit (lent var.old coef.old row.old start.old col.old order.old parity.old info.old a.old) }
    requires work_fits { WorkFits (lent_work chk.old load.old own.old deg.old) }
    ensures value { result ≡ numbers (built n m degrees.now seed) (descending n) }
    ensures fact { ◌≡◌ {A = Parts} (lent var.new coef.new row.new start.new col.new order.new parity.new info.new a.new)
        (parts (built n m degrees.now seed) (descending n)) }
{
    clear_code(var, coef, row, start, col, order, parity, info, a);
    let count = build_graph(
        n, m, seed, degrees, var, coef, row, start, col, chk, load, own, deg,
    );
    edges::lay_order(&mut order[..n]);
    let rank = encoder::build_encoder(n, m, var, coef, row, order, chk, parity, info, a);
    Code {
        n,
        m,
        edges: count,
        rank,
    }
}
