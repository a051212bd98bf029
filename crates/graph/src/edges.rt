// The edge list of a grown graph: edges grouped by check, their coefficients, and the places of each variable's edges.
ghost use Rattle.std.specs.Prelude.{◌≡◌, ◌<◌, ◌≤◌, ◌+◌, length};
ghost use Rattle.lists.specs.Values.{values};
ghost use Rattle.lists.specs.Chain.{chain, start_of};
ghost use Rattle.lists.specs.Laid.{laid, laid_from};
ghost use Rattle.growth.specs.Rows.{rows_of};
ghost use Rattle.graph.specs.Parts.{places};
ghost use Rattle.graph.specs.Coefficients.{coefficient};
ghost use Rattle.graph.specs.Descending.{descending};

use field::splitmix64::SplitMix64;
use growth::table::Table;

// Check c's variables, from place `at` on. No plainer, here and below: the place after them is answered, where the next begin.
fn lay_check(checks: &Table, c: usize, var: &mut [u16], at: usize) -> usize
    requires { (c < 256) × (length var.old ≡ 512) × (at + length (rows_of checks.now c) ≤ 512) }
    ensures { (var.new ≡ laid_from at (rows_of checks.now c) var.old) × (result ≡ at + length (rows_of checks.now c)) }
{
    let row = checks.row(c);
    for (j, v) in row.iter().enumerate() {
        var[at + j] = *v as u16;
    }
    at + row.len()
}

// The variables of all edges, check by check, and where each check's edges start. Answers the number of edges.
pub fn lay_checks(checks: &Table, m: usize, var: &mut [u16], row: &mut [u16]) -> usize
    requires { (m ≤ 256) × (length var.old ≡ 512) × (length row.old ≡ 257) × (start_of (rows_of checks.now) m ≤ 512) }
    ensures { (var.new ≡ laid (chain m (rows_of checks.now)) var.old)
        × (row.new ≡ laid (values (m + 1) (start_of (rows_of checks.now))) row.old)
        × (result ≡ start_of (rows_of checks.now) m) }
{
    let mut at = 0usize;
    row[0] = 0;
    for (c, end) in row[1..1 + m].iter_mut().enumerate() {
        at = lay_check(checks, c, var, at);
        *end = at as u16;
    }
    at
}

// A coefficient for each edge, one draw each.
pub fn draw_coefs(seed: u64, coef: &mut [u8])
    ensures { coef.new ≡ values (length coef.old) (coefficient seed) }
{
    let mut generator = SplitMix64 { state: seed };
    for coefficient in coef.iter_mut() {
        *coefficient = (1 + generator.draw() % 31) as u8;
    }
}

// The places of v's edges, ascending, from place `at` on.
fn lay_places(var: &[u16], v: usize, col: &mut [u16], at: usize) -> usize
    requires { (length var.now ≤ 512) × (length col.old ≡ 512) × (at + length (places var.now v) ≤ 512) }
    ensures { (col.new ≡ laid_from at (places var.now v) col.old) × (result ≡ at + length (places var.now v)) }
{
    let mut to = at;
    for (e, x) in var.iter().enumerate() {
        if *x as usize == v {
            col[to] = e as u16;
            to += 1;
        }
    }
    to
}

// The places of all variables' edges, and where each variable's start.
pub fn lay_columns(var: &[u16], n: usize, start: &mut [u16], col: &mut [u16])
    requires { (length var.now ≤ 512) × (n ≤ 256) × (length start.old ≡ 257) × (length col.old ≡ 512) }
    ensures { (col.new ≡ laid (chain n (places var.now)) col.old)
        × (start.new ≡ laid (values (n + 1) (start_of (places var.now))) start.old) }
{
    let mut at = 0usize;
    start[0] = 0;
    for (v, end) in start[1..1 + n].iter_mut().enumerate() {
        at = lay_places(var, v, col, at);
        *end = at as u16;
    }
}

// The columns from the last one back.
pub fn lay_order(order: &mut [u16])
    requires { length order.old ≤ 256 }
    ensures { order.new ≡ descending (length order.old) }
{
    let n = order.len();
    for (k, column) in order.iter_mut().enumerate() {
        *column = (n - (k + 1)) as u16;
    }
}
