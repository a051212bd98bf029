// The search for a later edge's check, in breadth.
ghost use Rattle.std.specs.Prelude.{◌≡◌, ◌<◌, ◌≤◌, ◌+◌, [], length};
ghost use mathlib.Core.List.{foldl};
ghost use Rattle.lists.specs.Entry.{nth};
ghost use Rattle.growth.specs.PickMin.{pick_min};
ghost use Rattle.growth.specs.Search.{meet, layer, unmarked, begin, searched};
ghost use Rattle.growth.specs.Rows.{rows_of, free, Went, adjacency_of};
ghost use Rattle.growth.specs.Served.{Good};

use crate::pick_min::pick_min;
use crate::table::Table;
use arrayvec::ArrayVec;

// The entries of a row that are not marked, in their order: marked, and put behind those found before.
fn visit(row: &[u8], seen: &mut [bool; 256], found: &mut ArrayVec<u8, 256>)
    requires { free seen.old + length found.old.items ≤ 256 }
    ensures { Went (λ s. foldl meet s row.now) (seen.old, found.old.items) (seen.new, found.new.items) }
{
    for c in row {
        let p = *c as usize;
        if !seen[p] {
            seen[p] = true;
            found.push(*c);
        }
    }
}

// A layer, found anew: what the rows of the front's entries hold that is not marked.
fn layer(table: &Table, front: &[u8], seen: &mut [bool; 256], found: &mut ArrayVec<u8, 256>)
    ensures { Went (λ s. layer (rows_of table.now) front.now s.0) (seen.old, []) (seen.new, found.new.items) }
{
    found.clear();
    for u in front {
        visit(table.row(*u as usize), seen, found);
    }
}

// The numbers below m that are not marked, ascending.
#[tactic(auto, unfolding(crate::specs::Search::unmarked, lists::specs::Keep::keep_below, lists::specs::Choice::pick))]
fn unmarked(seen: &[bool; 256], m: usize) -> ArrayVec<u8, 256>
    requires { m ≤ 256 }
    ensures { result.items ≡ unmarked seen.now m }
{
    let mut rest = ArrayVec::new();
    for (c, marked) in seen[..m].iter().enumerate() {
        if !*marked {
            rest.push(c as u8);
        }
    }
    rest
}

// The choice among the checks below m that are not marked.
pub fn pick_unmarked(checks: &Table, seen: &[bool; 256], m: usize, draw: u64) -> u8
    requires { (m ≤ 256) × (0 < length (unmarked seen.now m)) }
    ensures { result ≡ pick_min (nth checks.now.counts.now) (unmarked seen.now m) draw }
{
    let rest = unmarked(seen, m);
    pick_min(checks.counts, &rest, draw)
}

// The check for a later edge of v. The source also drops v's own checks from the newest layer and has two fallbacks; none of them ever acts (proofs/Source.antt).
// No plainer: m is a number with two bounds, as in `peg`. The checks not reached are counted in each turn and listed only at an ending that chooses among them: a list in each turn would cost m steps.
pub fn search(checks: &Table, vars: &Table, m: usize, v: u8, draw: u64) -> u8
    requires m_bound { (m ≤ 256) × (0 < m) }
    requires good { Good m 256 (adjacency_of checks.now vars.now) }
    ensures { result ≡ searched 257 m (adjacency_of checks.now vars.now) draw (begin v) }
{
    let mut seen_c = [false; 256];
    let mut seen_v = [false; 256];
    seen_v[v as usize] = true;
    let mut front = ArrayVec::<u8, 256>::new();
    front.push(v);
    let mut newest = ArrayVec::<u8, 256>::new();
    let mut left = m;
    // A rule of the project: document 01 names this form, "a loop that yields the chosen check by break".
    loop {
        layer(vars, &front, &mut seen_c, &mut newest);
        if newest.is_empty() {
            break pick_unmarked(checks, &seen_c, m, draw);
        }
        left -= newest.len();
        if left == 0 {
            break pick_min(checks.counts, &newest, draw);
        }
        layer(checks, &newest, &mut seen_v, &mut front);
        if front.is_empty() {
            break pick_unmarked(checks, &seen_c, m, draw);
        }
    }
}
