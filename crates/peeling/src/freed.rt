// How many checks each symbol frees.
ghost use Rattle.std.specs.Prelude.{◌≡◌, ℕ, ◌+◌, ◌<◌, ◌≤◌, eqb, length};
ghost use Rattle.lists.specs.Choice.{pick};
ghost use Rattle.lists.specs.Entry.{nth};
ghost use Rattle.lists.specs.Times.{times};
ghost use Rattle.lists.specs.Total.{total};
ghost use Rattle.lists.specs.Values.{values};
ghost use Rattle.peeling.specs.EdgeLists.{symbols};

use crate::edges::Edges;

// Counts the symbols of some edges.
fn count_symbols(var: &[u16], counts: &mut [u16])
    requires inside { (e : ℕ) → e < length var.now → nth var.now e < length counts.old }
    requires room { (v : ℕ) → nth counts.old v + length var.now < 65536 }
    ensures { (length counts.new ≡ length counts.old)
        × ((v : ℕ) → nth counts.new v ≡ nth counts.old v + times v (values (length var.now) (nth var.now))) }
{
    for v in var {
        counts[*v as usize] += 1;
    }
}

// Goes over the checks with two unknown symbols, and not over each symbol's edges: so the check of an edge need not be found. `freed` is 0 everywhere before.
pub fn count_freed(edges: &Edges, unknown: &[u16], freed: &mut [u16])
    requires lengths { (length unknown.now ≡ edges.now.m) × (edges.now.n ≤ length freed.old) }
    requires blank { (v : ℕ) → nth freed.old v ≡ 0 }
    ensures { (length freed.new ≡ length freed.old)
        × ((v : ℕ) → nth freed.new v ≡ total edges.now.m (λ c. pick (eqb (nth unknown.now c) 2) (times v (symbols edges.now c)) 0)) }
{
    for (c, count) in unknown.iter().enumerate() {
        if *count == 2 {
            count_symbols(edges.symbols(c), freed);
        }
    }
}
