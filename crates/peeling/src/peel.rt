// Peeling, with nothing known at first.
ghost use Rattle.std.specs.Prelude.{◌≡◌, false, List, ℕ, ◌≤◌, eqb, pos, length, get_or};
ghost use Rattle.lists.specs.Choice.{pick};
ghost use Rattle.lists.specs.Entry.{nth};
ghost use Rattle.lists.specs.Laid.{laid};
ghost use Rattle.lists.specs.Times.{times};
ghost use Rattle.lists.specs.Total.{total};
ghost use Rattle.peeling.specs.Best.{is_last, best};
ghost use Rattle.peeling.specs.EdgeLists.{symbols, graph_with};
ghost use Rattle.peeling.specs.Peeling.{picks_of};

use crate::best::{Tie, best};
use crate::edges::Edges;
use crate::freed::count_freed;
use crate::unknowns::{count_all, following, learn};

// The symbol to pick where no check has exactly one unknown.
fn pick_of(edges: &Edges, tie: Tie, prefer: &[i64], known: &[bool], unknown: &[u16]) -> usize
    requires { (length prefer.now ≡ edges.now.n) × (length known.now ≡ edges.now.n) × (length unknown.now ≡ edges.now.m) }
    ensures { result ≡ best (is_last tie) edges.now.n (λ v. get_or known.now v false)
        (λ v. (
          total edges.now.m (λ c. pick (eqb (nth unknown.now c) 2) (times v (symbols edges.now c)) 0),
          get_or prefer.now v (pos 0),
        )) }
{
    // A project rule, no heap: room for 256 symbols.
    let mut freed = [0u16; 256];
    count_freed(edges, unknown, &mut freed);
    best(tie, known, &freed, prefer)
}

// The picks, to the front of `picks`. Answers how many they are. Coefficients do not matter.
pub fn peel(edges: &Edges, tie: Tie, prefer: &[i64], picks: &mut [u16]) -> usize
    requires { (length prefer.now ≡ edges.now.n) × (edges.now.n ≤ length picks.old) }
    ensures number { (coef : List ℕ) → result ≡ length (picks_of (is_last tie) (graph_with edges.now coef) prefer.now) }
    ensures picks_after { (coef : List ℕ) → picks.new ≡ laid (picks_of (is_last tie) (graph_with edges.now coef) prefer.now) picks.old }
{
    // A project rule, no heap: room for 256 symbols and as many checks.
    let mut known = [false; 256];
    let mut unknown = [0u16; 256];
    count_all(edges, &mut unknown);
    let mut k = 0;
    // No plainer: each turn makes one symbol known. The count k stays beside `picks`, which is lent memory: its length is answered.
    for _ in 0..edges.n {
        let v = match following(edges, &known, &unknown[..edges.m]) {
            Some(v) => v,
            None => {
                let p = pick_of(edges, tie, prefer, &known[..edges.n], &unknown[..edges.m]);
                picks[k] = p as u16;
                k += 1;
                p
            }
        };
        known[v] = true;
        learn(edges, v, &mut unknown);
    }
    k
}
