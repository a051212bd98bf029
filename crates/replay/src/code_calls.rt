// The calls on a code that is lent, as the heads of the lists in data/ say. Before a call every entry of its output and work parts is 1.
ghost use Rattle.std.specs.Prelude.{◌≡◌, ◌∷◌, [], Result, IfOk, false, drop, if◌then◌else◌, length, map, replicate, take, vec_len};
ghost use Rattle.std.specs.Float.Ieee.{is_nan, of_bits, to_bits, binary32};
ghost use Rattle.calls.specs.declared.Refusal.{Refusal};
ghost use Rattle.calls.specs.Refusal.{first_of, answered, answer_number};
ghost use Rattle.calls.specs.Parts.{written, posted, counted};
ghost use Rattle.graph.specs.declared.Code.{Code as Numbers};
ghost use Rattle.graph.specs.Parts.{Parts};
ghost use Rattle.lent.specs.LentCode.{graph_of, lent_refusals};
ghost use Rattle.words.specs.Word.{all_satisfied};
ghost use Rattle.words.specs.Encode.{encode_refusals, encoded};
ghost use Rattle.words.specs.InfoOf.{info_of_refusals, own_symbols, own_part};
ghost use Rattle.words.specs.ChecksOk.{checks_ok_refusals};
ghost use Rattle.words.specs.Degree.{degree_in, degree_refusals};
ghost use Rattle.words.specs.K.{k_of};
ghost use Rattle.words.specs.N.{n_of};
ghost use Rattle.words.specs.InfoPositions.{info_positions_refusals, positions_part};
ghost use Rattle.peeling.specs.PeelPicks.{peel_picks_refusals, picked, picks_part};
ghost use Rattle.peeling.specs.WithPeeledInfo.{peeled_refusals, peeled_code, peeled_parts};
ghost use Rattle.candidates.specs.ListWord.{list_word};
ghost use Rattle.decoders.specs.BeliefPropagation.{rounds};
ghost use Rattle.decoders.specs.DecodeSoft.{soft_answer, last_decisions, last_posteriors};
ghost use Rattle.decoders.specs.Decode.{decode_answer};
ghost use Rattle.decoders.specs.ListDecode.{list_answer};
ghost use Rattle.replay.specs.Answers.{number_found};
ghost use Rattle.replay.specs.Digest.{digest_of};
ghost use Rattle.replay.specs.Held.{held};

use crate::answers::{Answers, Found, WorkPart};
use crate::code::Code;
use crate::digest::WorkKind;
use crate::lending::{Sent, work_parts};
use std::alloc::{AllocError, Global};

// The answers of a call that worked in h and pivots.
fn answers(alloc: Global, found: &[Found], h: &[u8], pivots: &[u16]) -> Result<Answers, AllocError>
    ensures found { IfOk result (λ a. a.found.items ≡ found.now) }
    ensures work { IfOk result (λ a. map (λ w. w.ours) a.work.items ≡ digest_of h.now ∷ digest_of pivots.now ∷ []) }
{
    let work = [
        WorkPart::new("h", WorkKind::Large, h),
        WorkPart::new("pivots", WorkKind::Small, pivots),
    ];
    Answers::new(alloc, found, &work)
}

// encode CODE DAMAGE COUNT DRAWS LIMIT NUMBER WORD
pub fn encode(alloc: Global, code: &Code, symbols: &[u8]) -> Result<Answers, AllocError>
    ensures { (answer : Result (Unit {0}) Refusal) → answer ≡ answered (first_of (encode_refusals (held code.now) symbols.now code.now.shape.n 65536 256)) (tt {0}) →
        IfOk result (λ r. map (λ f. f.ours) r.found.items ≡ answer_number answer ∷ digest_of (written answer (replicate code.now.shape.n 1) (encoded (held code.now) symbols.now)) ∷ []) }
{
    let mut word = vec![in alloc; 1u8; code.shape.n]?;
    let (mut h, mut pivots) = work_parts(alloc)?;
    let answer = words::encode(&code.lend(), symbols, &mut word, &mut h, &mut pivots);
    let found = [Found::number(answer), Found::digest("word", &word)];
    answers(alloc, &found, &h, &pivots)
}

// info_of CODE DAMAGE COUNT DRAWS LIMIT PLACE CHANGE NUMBER K SYMS
pub fn info_of(alloc: Global, code: &Code, word: &[u8]) -> Result<Answers, AllocError>
    ensures { let answer = answered (first_of (info_of_refusals (held code.now) word.now (length word.now) 65536 256)) (length (own_symbols (held code.now) word.now)) in
        IfOk result (λ r. map (λ f. f.ours) r.found.items ≡ answer_number answer ∷ number_found (λ x. x) answer ∷ digest_of (written answer (replicate (length word.now) 1) (own_part (held code.now) word.now)) ∷ []) }
{
    let mut symbols = vec![in alloc; 1u8; word.len()]?;
    let (mut h, mut pivots) = work_parts(alloc)?;
    let answer = words::info_of(&code.lend(), word, &mut symbols, &mut h, &mut pivots);
    let found = [
        Found::number(answer),
        Found::finding("count of symbols", answer),
        Found::digest("syms", &symbols),
    ];
    answers(alloc, &found, &h, &pivots)
}

// checks_ok CODE DAMAGE COUNT DRAWS LIMIT PLACE CHANGE NUMBER OK
pub fn checks_ok(alloc: Global, code: &Code, word: &[u8]) -> Result<Answers, AllocError>
    ensures { let answer = answered (first_of (checks_ok_refusals (held code.now) word.now 65536 256)) (all_satisfied (graph_of (held code.now)) word.now) in
        IfOk result (λ r. map (λ f. f.ours) r.found.items ≡ answer_number answer ∷ number_found (λ ok. if ok then 1 else 0) answer ∷ []) }
{
    let (mut h, mut pivots) = work_parts(alloc)?;
    let answer = words::checks_ok(&code.lend(), word, &mut h, &mut pivots);
    let found = [Found::number(answer), Found::finding("verdict", answer)];
    answers(alloc, &found, &h, &pivots)
}

// degree CODE DAMAGE V NUMBER DEGREE
pub fn degree(alloc: Global, code: &Code, v: usize) -> Result<Answers, AllocError>
    ensures { let answer = answered (first_of (degree_refusals (held code.now) v 65536 256)) (degree_in (graph_of (held code.now)) v) in
        IfOk result (λ r. map (λ f. f.ours) r.found.items ≡ answer_number answer ∷ number_found (λ x. x) answer ∷ []) }
{
    let (mut h, mut pivots) = work_parts(alloc)?;
    let answer = words::degree(&code.lend(), v, &mut h, &mut pivots);
    let found = [Found::number(answer), Found::finding("degree", answer)];
    answers(alloc, &found, &h, &pivots)
}

// k CODE DAMAGE NUMBER K
// No plainer: `k` and `n` as one function would take the call, its name and the definition of what it finds, and all else that they share is `answers`.
pub fn k(alloc: Global, code: &Code) -> Result<Answers, AllocError>
    ensures { let answer = answered (first_of (lent_refusals (held code.now) 65536 256 false)) (k_of (held code.now)) in
        IfOk result (λ r. map (λ f. f.ours) r.found.items ≡ answer_number answer ∷ number_found (λ x. x) answer ∷ []) }
{
    let (mut h, mut pivots) = work_parts(alloc)?;
    let answer = words::k(&code.lend(), &mut h, &mut pivots);
    let found = [Found::number(answer), Found::finding("k", answer)];
    answers(alloc, &found, &h, &pivots)
}

// n CODE DAMAGE NUMBER SYMBOLS
// No plainer: as for `k`.
pub fn n(alloc: Global, code: &Code) -> Result<Answers, AllocError>
    ensures { let answer = answered (first_of (lent_refusals (held code.now) 65536 256 false)) (n_of (held code.now)) in
        IfOk result (λ r. map (λ f. f.ours) r.found.items ≡ answer_number answer ∷ number_found (λ x. x) answer ∷ []) }
{
    let (mut h, mut pivots) = work_parts(alloc)?;
    let answer = words::n(&code.lend(), &mut h, &mut pivots);
    let found = [Found::number(answer), Found::finding("n", answer)];
    answers(alloc, &found, &h, &pivots)
}

// info_positions CODE DAMAGE NUMBER K POSITIONS
pub fn info_positions(alloc: Global, code: &Code) -> Result<Answers, AllocError>
    ensures { let answer = answered (first_of (info_positions_refusals (held code.now) code.now.shape.n 65536 256)) (k_of (held code.now)) in
        IfOk result (λ r. map (λ f. f.ours) r.found.items ≡ answer_number answer ∷ number_found (λ x. x) answer ∷ digest_of (written answer (replicate code.now.shape.n 1) (positions_part (held code.now))) ∷ []) }
{
    let mut positions = vec![in alloc; 1u16; code.shape.n]?;
    let (mut h, mut pivots) = work_parts(alloc)?;
    let answer = words::info_positions(&code.lend(), &mut positions, &mut h, &mut pivots);
    let found = [
        Found::number(answer),
        Found::finding("count of positions", answer),
        Found::digest("positions", &positions),
    ];
    answers(alloc, &found, &h, &pivots)
}

// peel_picks CODE DAMAGE RULE SHIFT NUMBER COUNT PICKS
pub fn peel_picks(alloc: Global, code: &Code, prefer: &[i64]) -> Result<Answers, AllocError>
    ensures { let answer = answered (first_of (peel_picks_refusals (held code.now) prefer.now (length prefer.now) 65536 256)) (length (picked (held code.now) prefer.now)) in
        IfOk result (λ r. map (λ f. f.ours) r.found.items ≡ answer_number answer ∷ number_found (λ x. x) answer ∷ digest_of (written answer (replicate (length prefer.now) 1) (picks_part (held code.now) prefer.now)) ∷ []) }
{
    let mut picks = vec![in alloc; 1u16; prefer.len()]?;
    let (mut h, mut pivots) = work_parts(alloc)?;
    let answer = peeling::peel_picks(&code.lend(), prefer, &mut picks, &mut h, &mut pivots);
    let found = [
        Found::number(answer),
        Found::finding("count of picks", answer),
        Found::digest("picks", &picks),
    ];
    answers(alloc, &found, &h, &pivots)
}

// with_peeled_info CODE DAMAGE RULE SHIFT NUMBER RANK ORDER PARITY INFO A
pub fn with_peeled_info(
    alloc: Global,
    mut code: Code,
    prefer: &[i64],
) -> Result<Answers, AllocError>
    ensures { let l = held code in
        (answer : Result Numbers Refusal) → answer ≡ answered (first_of (peeled_refusals l.code l.parts prefer.now 65536 256)) (peeled_code l.code l.parts prefer.now) →
        (after : Parts) → after ≡ written answer l.parts (peeled_parts l.code l.parts prefer.now) →
        IfOk result (λ r. map (λ f. f.ours) r.found.items ≡ answer_number answer ∷ number_found (λ c. c.rank) answer
        ∷ digest_of after.order ∷ digest_of after.parity ∷ digest_of after.info ∷ digest_of after.a ∷ []) }
{
    let (mut h, mut pivots) = work_parts(alloc)?;
    let answer = peeling::with_peeled_info(
        code.numbers,
        &code.var,
        &code.coef,
        &code.row,
        &code.start,
        &code.col,
        &mut code.order,
        &mut code.parity,
        &mut code.info,
        &mut code.a,
        prefer,
        &mut h,
        &mut pivots,
    );
    let found = [
        Found::number(answer),
        Found::finding("rank", answer),
        Found::digest("order", &code.order),
        Found::digest("parity", &code.parity),
        Found::digest("info", &code.info),
        Found::digest("a", &code.a),
    ];
    answers(alloc, &found, &h, &pivots)
}

// decode_soft CODE DAMAGE RULE DRAWS SPREAD PEAK KNOWN LIMIT NUMBER ROUNDS WORD POSTERIORS
pub fn decode_soft(
    alloc: Global,
    sent: &Sent,
    known: u32,
    limit: u32,
) -> Result<Answers, AllocError>
    ensures found { let l = held sent.now.code in let metrics = sent.now.metrics.items in
        let answer = soft_answer l.code l.parts metrics known limit (vec_len sent.now.word) (length metrics) 65536 256 50176 in
        IfOk result (λ r. take 3 (map (λ f. f.ours) r.found.items) ≡ answer_number answer ∷ counted answer (rounds l.code l.parts metrics known limit)
        ∷ digest_of (written answer (replicate (vec_len sent.now.word) 1) (last_decisions l.code l.parts metrics known limit)) ∷ []) }
    ensures posteriors { let l = held sent.now.code in let metrics = sent.now.metrics.items in
        (answer : Result (Unit {0}) Refusal) → answer ≡ soft_answer l.code l.parts metrics known limit (vec_len sent.now.word) (length metrics) 65536 256 50176 →
        IfOk result (λ r. drop 3 (map (λ f. f.ours) r.found.items)
        ≡ digest_of (map (λ x. if is_nan x then 2143289344 else to_bits binary32 x) (posted answer (replicate (length metrics) (of_bits binary32 1065353216)) (last_posteriors l.code l.parts metrics known limit))) ∷ []) }
{
    let mut word = vec![in alloc; 1u8; sent.word.len()]?;
    let mut posteriors = vec![in alloc; 1.0f32; sent.metrics.len()]?;
    let (mut h, mut pivots) = work_parts(alloc)?;
    let mut vectors = vec![in alloc; 1.0f32; 50176]?;
    let decoding = decoders::decode_soft(
        &sent.code.lend(),
        &sent.metrics,
        known,
        limit,
        &mut word,
        &mut posteriors,
        &mut h,
        &mut pivots,
        &mut vectors,
    );
    let found = [
        Found::number(decoding.answer),
        Found::new("count of rounds", u64::from(decoding.rounds)),
        Found::digest("word", &word),
        Found::digest("posteriors", &posteriors),
    ];
    let mut answers = answers(alloc, &found, &h, &pivots)?;
    let vectors = WorkPart::new("vectors", WorkKind::Vectors, &vectors);
    answers.work.push(vectors)?;
    Ok(answers)
}

// decode CODE DAMAGE RULE DRAWS SPREAD PEAK KNOWN LIMIT NUMBER ROUNDS WORD
// No plainer as one with `decode_soft`: it has no part for posteriors, and is another call.
pub fn decode(alloc: Global, sent: &Sent, known: u32, limit: u32) -> Result<Answers, AllocError>
    ensures { let l = held sent.now.code in let metrics = sent.now.metrics.items in
        let answer = decode_answer l.code l.parts metrics known limit (vec_len sent.now.word) 65536 256 50176 in
        IfOk result (λ r. map (λ f. f.ours) r.found.items ≡ answer_number answer ∷ counted answer (rounds l.code l.parts metrics known limit)
        ∷ digest_of (written answer (replicate (vec_len sent.now.word) 1) (last_decisions l.code l.parts metrics known limit)) ∷ []) }
{
    let mut word = vec![in alloc; 1u8; sent.word.len()]?;
    let (mut h, mut pivots) = work_parts(alloc)?;
    let mut vectors = vec![in alloc; 1.0f32; 50176]?;
    let decoding = decoders::decode(
        &sent.code.lend(),
        &sent.metrics,
        known,
        limit,
        &mut word,
        &mut h,
        &mut pivots,
        &mut vectors,
    );
    let found = [
        Found::number(decoding.answer),
        Found::new("count of rounds", u64::from(decoding.rounds)),
        Found::digest("word", &word),
    ];
    let mut answers = answers(alloc, &found, &h, &pivots)?;
    let vectors = WorkPart::new("vectors", WorkKind::Vectors, &vectors);
    answers.work.push(vectors)?;
    Ok(answers)
}

// list_decode CODE DAMAGE RULE DRAWS SPREAD PEAK KNOWN RULE DRAWS SPREAD PEAK WIDTH NUMBER ROUNDS WORD
pub fn list_decode(
    alloc: Global,
    sent: &Sent,
    posteriors: &[f32],
    width: usize,
) -> Result<Answers, AllocError>
    ensures { let l = held sent.now.code in let metrics = sent.now.metrics.items in
        (answer : Result (Unit {0}) Refusal) → answer ≡ list_answer l.code l.parts metrics posteriors.now width (vec_len sent.now.word) 65536 256 →
        IfOk result (λ r. map (λ f. f.ours) r.found.items ≡ answer_number answer ∷ 0
        ∷ digest_of (written answer (replicate (vec_len sent.now.word) 1) (list_word (graph_of l) l.parts.order posteriors.now metrics width)) ∷ []) }
{
    let mut word = vec![in alloc; 1u8; sent.word.len()]?;
    let (mut h, mut pivots) = work_parts(alloc)?;
    let decoding = decoders::list_decode(
        &sent.code.lend(),
        &sent.metrics,
        posteriors,
        width,
        &mut word,
        &mut h,
        &mut pivots,
    );
    let found = [
        Found::number(decoding.answer),
        Found::new("count of rounds", u64::from(decoding.rounds)),
        Found::digest("word", &word),
    ];
    answers(alloc, &found, &h, &pivots)
}
