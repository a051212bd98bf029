// How many unknown symbols each check has, and which symbol follows.
ghost use Rattle.std.specs.Prelude.{◌≡◌, ◌==◌, ℕ, ◌+◌, ◌-◌, ◌<◌, ◌≤◌, length};
ghost use Rattle.std.specs.List.{position};
ghost use Rattle.lists.specs.Entry.{nth};
ghost use Rattle.lists.specs.Laid.{laid};
ghost use Rattle.lists.specs.Values.{values};
ghost use Rattle.peeling.specs.EdgeLists.{symbols, edges_in, first_new, followed_by};

use crate::edges::Edges;

// Nothing is known: every edge of a check counts.
pub fn count_all(edges: &Edges, unknown: &mut [u16])
    requires { edges.now.m ≤ length unknown.old }
    ensures { unknown.new ≡ laid (values edges.now.m (λ c. nth edges.now.row.now (c + 1) - nth edges.now.row.now c)) unknown.old }
{
    // No plainer: by `windows(2)` each difference would need that a window has two entries, the second not below the first.
    for c in 0..edges.m {
        unknown[c] = edges.row[c + 1] - edges.row[c];
    }
}

// The lowest check with exactly one unknown symbol.
fn one_unknown(unknown: &[u16]) -> Option<usize>
    ensures { result ≡ position (λ u. u == 1) unknown.now }
{
    unknown.iter().position(|count| *count == 1)
}

// The first of some symbols that is unknown.
fn first_new(known: &[bool], symbols: &[u16]) -> Option<usize>
    requires { (j : ℕ) → j < length symbols.now → nth symbols.now j < length known.now }
    ensures { result ≡ first_new known.now symbols.now }
{
    // Tried, not proved: `iter().map(..).find(..)` leaves open that each symbol it asks for has a mark.
    for v in symbols {
        if !known[*v as usize] {
            return Some(*v as usize);
        }
    }
    None
}

// The symbol that follows: the unknown one of the lowest check that has exactly one.
pub fn following(edges: &Edges, known: &[bool], unknown: &[u16]) -> Option<usize>
    requires { (length unknown.now ≤ edges.now.m) × (edges.now.n ≤ length known.now) }
    ensures { result ≡ followed_by edges.now known.now unknown.now }
{
    let c = one_unknown(unknown)?;
    first_new(known, edges.symbols(c))
}

// Symbol v is known from now on: each of its checks has one unknown symbol less.
pub fn learn(edges: &Edges, v: usize, unknown: &mut [u16])
    requires { (v < edges.now.n) × (edges.now.m ≤ length unknown.old) × ((c : ℕ) → c < edges.now.m → edges_in edges.now v c ≤ nth unknown.old c) }
    ensures { (length unknown.new ≡ length unknown.old)
        × ((c : ℕ) → c < edges.now.m → nth unknown.new c ≡ nth unknown.old c - edges_in edges.now v c) }
{
    for e in edges.places(v) {
        unknown[edges.check_of(*e as usize)] -= 1;
    }
}
