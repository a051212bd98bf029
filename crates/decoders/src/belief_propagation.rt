// Belief propagation on a sound code.
ghost use Rattle.std.specs.Prelude.{◌≡◌, false, ◌*◌, ◌<◌, length, take, replicate};
ghost use Rattle.calls.specs.Parts.{written};
ghost use Rattle.vectors.specs.Float32.{zero32};
ghost use Rattle.rounds.specs.Tanner.{tanner_in};
ghost use Rattle.rounds.specs.Work.{vectors_length};
ghost use Rattle.rounds.specs.Ready.{Narrow};
ghost use Rattle.rounds.specs.GoneOn.{GoneOn};
ghost use Rattle.decoders.specs.BeliefPropagation.{start, rounds as rounds_made, satisfied, wide, ended_by};
ghost use Rattle.decoders.specs.DecodeSoft.{last_decisions, last_posteriors};

use crate::{Decoding, output, refusals};
use lent::Sound;
use rounds::begin::begin;
use rounds::rounds::{Ended, go_on};
use rounds::tanner_graph::TannerGraph;

// Whether a check of the code has more than 32 edges: number 9, where a round is made.
pub fn too_wide(code: &Sound) -> bool
    ensures { result ≡ wide code.now.code.m code.now.parts.row }
{
    let lent = code.lent;
    refusals::too_wide(lent.numbers.m, lent.row)
}

// Begins on a code, and makes rounds up to the limit. The decisions of the last one stand in front of h.
pub fn run(
    code: &Sound,
    metrics: &[f32],
    known: u32,
    limit: u32,
    h: &mut [u8],
    vectors: &mut [f32],
) -> Ended
    requires narrow { 0 < limit → Narrow code.now.code.m code.now.parts.row }
    requires lengths { (length vectors.old ≡ vectors_length) × (length metrics.now ≡ code.now.code.n * 32) × (length h.old ≡ 65536) }
    ensures { GoneOn (tanner_in code.now.code code.now.parts) (start code.now.code code.now.parts metrics.now known) limit result vectors.new (take code.now.code.n h.new) }
{
    let lent = code.lent;
    let n = lent.numbers.n;
    let k = n - lent.numbers.rank;
    let first = (known as usize).min(k);
    begin(
        n,
        lent.numbers.edges,
        k,
        first,
        lent.var,
        lent.info,
        metrics,
        vectors,
    );
    go_on(&TannerGraph::of(code), limit, vectors, &mut h[..n])
}

// The rounds with what a decoding hands out: its answer, the word, where there is one, and the last posteriors. The work parts are zero afterwards.
pub fn propagate(
    code: &Sound,
    metrics: &[f32],
    known: u32,
    limit: u32,
    word: &mut [u8],
    posteriors: &mut [f32],
    h: &mut [u8],
    vectors: &mut [f32],
) -> Decoding
    requires narrow { 0 < limit → wide code.now.code.m code.now.parts.row ≡ false }
    requires outputs { (length word.old ≡ code.now.code.n) × (length posteriors.old ≡ code.now.code.n * 32) }
    requires lengths { (length vectors.old ≡ vectors_length) × (length metrics.now ≡ code.now.code.n * 32) × (length h.old ≡ 65536) }
    ensures answer { result.answer ≡ ended_by (satisfied code.now.code code.now.parts metrics.now known limit) }
    ensures rounds { result.rounds ≡ rounds_made code.now.code code.now.parts metrics.now known limit }
    ensures word_after { word.new ≡ written result.answer word.old (last_decisions code.now.code code.now.parts metrics.now known limit) }
    ensures posteriors_after { posteriors.new ≡ last_posteriors code.now.code code.now.parts metrics.now known limit }
    ensures h_after { h.new ≡ replicate (length h.old) 0 }
    ensures vectors_after { vectors.new ≡ replicate (length vectors.old) zero32 }
{
    let lent = code.lent;
    let ended = run(code, metrics, known, limit, h, vectors);
    output::copy_posteriors(lent.numbers.n, vectors, posteriors);
    vectors.fill(0.0);
    output::finish(ended, h, word)
}
