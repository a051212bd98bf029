// Rounds from a state on.
ghost use Rattle.std.specs.Prelude.{◌≡◌, ◌<◌, length};
ghost use Rattle.rounds.specs.Round.{State};
ghost use Rattle.rounds.specs.Rounds.{posteriors_after};
ghost use Rattle.rounds.specs.Work.{vectors_length};
ghost use Rattle.rounds.specs.Holds.{Holds, Posted};
ghost use Rattle.rounds.specs.Ready.{Narrow};
ghost use Rattle.rounds.specs.GoneOn.{GoneOn};

use crate::round::round;
use crate::tanner_graph::TannerGraph;
use words::checks::all_satisfied;

// Whether a round satisfied all checks, and how many were made. The count is of both outcomes, so an `Option` of it would be no plainer.
#[derive(Clone, Copy, Debug, PartialEq, Eq)]
pub struct Ended {
    pub satisfied: bool,
    pub rounds: u32,
}

// Makes rounds until one satisfies all checks, `limit` at most. The decisions of the last one are left in `hard`.
pub fn go_on(graph: &TannerGraph, limit: u32, w: &mut [f32], hard: &mut [u8]) -> Ended
    requires narrow { 0 < limit → Narrow graph.now.m graph.now.row }
    requires w_len { (length w.old ≡ vectors_length) × (length hard.old ≡ graph.now.n) }
    ensures { (s : State) → Holds graph.now s w.old → Posted graph.now (posteriors_after graph.now s 0) w.old → GoneOn graph.now s limit result w.new hard.new }
{
    // No plainer: a count of turns, which is answered.
    for r in 0..limit {
        round(graph, w, hard);
        if all_satisfied(graph.m, graph.var, graph.coef, graph.row, hard) {
            return Ended {
                satisfied: true,
                rounds: r + 1,
            };
        }
    }
    Ended {
        satisfied: false,
        rounds: limit,
    }
}
