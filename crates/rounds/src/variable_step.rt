// The variable step.
ghost use Rattle.std.specs.Prelude.{◌≡◌, ◌+◌, ◌-◌};
ghost use Rattle.lists.specs.Entry.{nth};
ghost use Rattle.vectors.specs.Vector.{vector};
ghost use Rattle.rounds.specs.Work.{from_checks};
ghost use Rattle.rounds.specs.VariableStep.{gathered, gathered_without};
ghost use Rattle.rounds.specs.Listed.{Listed};

use crate::rows::FROM_CHECKS;
use vectors::vector::{load, multiply};

// The channel vector of v times the messages at the places that stand from `lo` to `hi` in `col`.
pub fn gather(col: &[u16], lo: usize, hi: usize, v: usize, w: &[f32]) -> [f32; 32]
    requires { Listed col.now lo hi v w.now }
    ensures { result ≡ gathered (hi - lo) (λ j. nth col.now (lo + j)) (from_checks w.now) (vector w.now v) }
{
    let mut p = load(w, v);
    for place in &col[lo..hi] {
        let from = load(w, FROM_CHECKS + *place as usize);
        let next = multiply(p, &from);
        p = next;
    }
    p
}

// The same without the message at place e. No plainer as one with `gather`, which has no branch: each has its own definition.
pub fn gather_without(e: usize, col: &[u16], lo: usize, hi: usize, v: usize, w: &[f32]) -> [f32; 32]
    requires { Listed col.now lo hi v w.now }
    ensures { result ≡ gathered_without e (hi - lo) (λ j. nth col.now (lo + j)) (from_checks w.now) (vector w.now v) }
{
    let mut p = load(w, v);
    for place in &col[lo..hi] {
        let place = *place as usize;
        if place != e {
            let from = load(w, FROM_CHECKS + place);
            let next = multiply(p, &from);
            p = next;
        }
    }
    p
}
