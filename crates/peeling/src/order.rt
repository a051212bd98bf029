// The column order that peeling gives: the positions that are not picked, ascending, then the picks reversed.
ghost use Rattle.std.specs.Prelude.{◌≡◌, List, ℕ, ◌≤◌, length};
ghost use Rattle.lists.specs.Laid.{laid};
ghost use Rattle.calls.specs.Parts.{padded};
ghost use Rattle.peeling.specs.Best.{is_last};
ghost use Rattle.peeling.specs.EdgeLists.{graph_with};
ghost use Rattle.peeling.specs.PeeledOrder.{peeled_order};
ghost use Rattle.peeling.specs.Peeling.{picks_of};

use crate::best::Tie;
use crate::edges::Edges;
use crate::peel::peel;
use elimination::positions::others;

// The positions below n that are not picked, ascending, then the picks reversed.
fn peeled_order(n: usize, picks: &[u16], order: &mut [u16])
    requires lengths { (n ≤ 256) × (length order.old ≡ 256) }
    requires room { length (peeled_order n picks.now) ≤ 256 }
    ensures { order.new ≡ laid (peeled_order n picks.now) order.old }
{
    let at = others(n, picks, order);
    let back = &mut order[at..at + picks.len()];
    back.copy_from_slice(picks);
    back.reverse();
}

// The column order that peeling gives.
pub fn reorder(edges: &Edges, tie: Tie, prefer: &[i64], order: &mut [u16])
    requires { (length prefer.now ≡ edges.now.n) × (length order.old ≡ 256) }
    ensures { (coef : List ℕ) → order.new ≡ padded 256 0 (peeled_order edges.now.n (picks_of (is_last tie) (graph_with edges.now coef) prefer.now)) }
{
    // A project rule, no heap: room for 256 picks.
    let mut picks = [0u16; 256];
    let k = peel(edges, tie, prefer, &mut picks);
    order.fill(0);
    peeled_order(edges.n, &picks[..k], order);
}
