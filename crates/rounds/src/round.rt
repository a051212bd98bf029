// A round: all checks, then all variables' posteriors and decisions, then all messages to checks.
ghost use Rattle.std.specs.Prelude.{◌≡◌, ◌+◌, length};
ghost use Rattle.lists.specs.Entry.{nth};
ghost use Rattle.lists.specs.Values.{values};
ghost use Rattle.vectors.specs.Vector.{vector};
ghost use Rattle.vectors.specs.Decision.{decision};
ghost use Rattle.rounds.specs.Round.{State};
ghost use Rattle.rounds.specs.VariableStep.{posterior, to_check};
ghost use Rattle.rounds.specs.Checked.{Made};
ghost use Rattle.rounds.specs.Work.{vectors_length, from_checks, Wrote, to_check_at, post_at};
ghost use Rattle.rounds.specs.Holds.{Holds, Rounded};
ghost use Rattle.rounds.specs.Ready.{Rows, Narrow, Columns, Ends};

use crate::check_step::check;
use crate::rows::{POSTERIORS, TO_CHECKS};
use crate::tanner_graph::TannerGraph;
use crate::variable_step::{gather, gather_without};
use vectors::decision::decide;
use vectors::normalize::normalize;
use vectors::vector::store;

// The messages from all checks.
fn check_all(m: usize, coef: &[u8], row: &[u16], w: &mut [f32])
    requires { (Rows m coef.now row.now) × (Narrow m row.now) × (length w.old ≡ vectors_length) }
    ensures { Made m coef.now row.now w.old w.new m }
{
    // No plainer: check c's edges begin and end by row[c] and row[c + 1].
    for c in 0..m {
        let lo = row[c] as usize;
        let hi = row[c + 1] as usize;
        check(coef, lo, hi - lo, w);
    }
}

// All posteriors and decisions.
fn decide_all(n: usize, start: &[u16], col: &[u16], w: &mut [f32], hard: &mut [u8])
    requires { (Columns n start.now col.now) × (length w.old ≡ vectors_length) × (length hard.old ≡ n) }
    ensures wrote { Wrote n post_at (posterior start.now col.now (vector w.old) (from_checks w.old)) w.old w.new }
    ensures hard_after { hard.new ≡ values n (λ v. decision (posterior start.now col.now (vector w.old) (from_checks w.old) v)) }
{
    // No plainer: v numbers the lists, the vectors and the decisions.
    for v in 0..n {
        let p = gather(col, start[v] as usize, start[v + 1] as usize, v, w);
        let post = normalize(p);
        store(w, POSTERIORS + v, &post);
        hard[v] = decide(&post);
    }
}

// All messages to checks.
fn send_all(n: usize, edges: usize, var: &[u16], start: &[u16], col: &[u16], w: &mut [f32])
    requires { (Columns n start.now col.now) × (Ends n edges var.now) × (length w.old ≡ vectors_length) }
    ensures { Wrote edges to_check_at (λ e. to_check start.now col.now (vector w.old) (from_checks w.old) (nth var.now e) e) w.old w.new }
{
    // No plainer: e is the place of the message, of which the step asks.
    for e in 0..edges {
        let v = var[e] as usize;
        let p = gather_without(e, col, start[v] as usize, start[v + 1] as usize, v, w);
        let message = normalize(p);
        store(w, TO_CHECKS + e, &message);
    }
}

pub fn round(graph: &TannerGraph, w: &mut [f32], hard: &mut [u8])
    requires narrow { Narrow graph.now.m graph.now.row }
    requires w_len { (length w.old ≡ vectors_length) × (length hard.old ≡ graph.now.n) }
    ensures { (s : State) → Holds graph.now s w.old → Rounded graph.now s w.new hard.new }
{
    check_all(graph.m, graph.coef, graph.row, w);
    decide_all(graph.n, graph.start, graph.col, w, hard);
    send_all(graph.n, graph.edges, graph.var, graph.start, graph.col, w);
}
