// The exported calls of the decoders. The count of rounds is written whatever the number. The C interface has a code's numbers and parts one by one.
ghost use Rattle.std.specs.Prelude.{◌≡◌, length};
ghost use Rattle.calls.specs.Refusal.{answer_number};
ghost use Rattle.calls.specs.Parts.{worked, written, posted, counted};
ghost use Rattle.lent.specs.LentCode.{graph_of};
ghost use Rattle.vectors.specs.Float32.{zero32};
ghost use Rattle.candidates.specs.ListWord.{list_word};
ghost use Rattle.decoders.specs.BeliefPropagation.{rounds as rounds_made};
ghost use Rattle.decoders.specs.DecodeSoft.{soft_answer, last_decisions, last_posteriors};
ghost use Rattle.decoders.specs.Decode.{decode_answer};
ghost use Rattle.decoders.specs.ListDecode.{list_answer};
ghost use Rattle.abi.specs.Held.{held_of};

use crate::{decoded, lent_code};

#[unsafe(no_mangle)]
pub extern "C" fn hazgunek_decode_soft(
    n: usize,
    m: usize,
    edges: usize,
    rank: usize,
    var: &[u16],
    coef: &[u8],
    row: &[u16],
    start: &[u16],
    col: &[u16],
    order: &[u16],
    parity: &[u16],
    info: &[u16],
    a: &[u8],
    metrics: &[f32],
    known: u32,
    limit: u32,
    rounds: &mut u32,
    word: &mut [u8],
    posteriors: &mut [f32],
    h: &mut [u8],
    pivots: &mut [u16],
    vectors: &mut [f32],
) -> u8
    ensures { let l = held_of n m edges rank var.now coef.now row.now start.now col.now order.now parity.now info.now a.now in
        let answer = soft_answer l.code l.parts metrics.now known limit (length word.old) (length posteriors.old) (length h.old) (length pivots.old) (length vectors.old)
        in (result ≡ answer_number answer)
        × (rounds.new ≡ counted answer (rounds_made l.code l.parts metrics.now known limit))
        × (word.new ≡ written answer word.old (last_decisions l.code l.parts metrics.now known limit))
        × (posteriors.new ≡ posted answer posteriors.old (last_posteriors l.code l.parts metrics.now known limit))
        × (h.new ≡ worked answer 0 h.old)
        × (pivots.new ≡ worked answer 0 pivots.old)
        × (vectors.new ≡ worked answer zero32 vectors.old) }
{
    let code = lent_code(
        n, m, edges, rank, var, coef, row, start, col, order, parity, info, a,
    );
    let decoding = decoders::decode_soft(
        &code, metrics, known, limit, word, posteriors, h, pivots, vectors,
    );
    decoded(decoding, rounds)
}

#[unsafe(no_mangle)]
pub extern "C" fn hazgunek_decode(
    n: usize,
    m: usize,
    edges: usize,
    rank: usize,
    var: &[u16],
    coef: &[u8],
    row: &[u16],
    start: &[u16],
    col: &[u16],
    order: &[u16],
    parity: &[u16],
    info: &[u16],
    a: &[u8],
    metrics: &[f32],
    known: u32,
    limit: u32,
    rounds: &mut u32,
    word: &mut [u8],
    h: &mut [u8],
    pivots: &mut [u16],
    vectors: &mut [f32],
) -> u8
    ensures { let l = held_of n m edges rank var.now coef.now row.now start.now col.now order.now parity.now info.now a.now in
        let answer = decode_answer l.code l.parts metrics.now known limit (length word.old) (length h.old) (length pivots.old) (length vectors.old)
        in (result ≡ answer_number answer)
        × (rounds.new ≡ counted answer (rounds_made l.code l.parts metrics.now known limit))
        × (word.new ≡ written answer word.old (last_decisions l.code l.parts metrics.now known limit))
        × (h.new ≡ worked answer 0 h.old)
        × (pivots.new ≡ worked answer 0 pivots.old)
        × (vectors.new ≡ worked answer zero32 vectors.old) }
{
    let code = lent_code(
        n, m, edges, rank, var, coef, row, start, col, order, parity, info, a,
    );
    let decoding = decoders::decode(&code, metrics, known, limit, word, h, pivots, vectors);
    decoded(decoding, rounds)
}

// There are no rounds: the count that is written is 0.
#[unsafe(no_mangle)]
pub extern "C" fn hazgunek_list_decode(
    n: usize,
    m: usize,
    edges: usize,
    rank: usize,
    var: &[u16],
    coef: &[u8],
    row: &[u16],
    start: &[u16],
    col: &[u16],
    order: &[u16],
    parity: &[u16],
    info: &[u16],
    a: &[u8],
    metrics: &[f32],
    posteriors: &[f32],
    width: usize,
    rounds: &mut u32,
    word: &mut [u8],
    h: &mut [u8],
    pivots: &mut [u16],
) -> u8
    ensures { let l = held_of n m edges rank var.now coef.now row.now start.now col.now order.now parity.now info.now a.now in
        let answer = list_answer l.code l.parts metrics.now posteriors.now width (length word.old) (length h.old) (length pivots.old)
        in (result ≡ answer_number answer)
        × (rounds.new ≡ 0)
        × (word.new ≡ written answer word.old (list_word (graph_of l) l.parts.order posteriors.now metrics.now width))
        × (h.new ≡ worked answer 0 h.old)
        × (pivots.new ≡ worked answer 0 pivots.old) }
{
    let code = lent_code(
        n, m, edges, rank, var, coef, row, start, col, order, parity, info, a,
    );
    let decoding = decoders::list_decode(&code, metrics, posteriors, width, word, h, pivots);
    decoded(decoding, rounds)
}
