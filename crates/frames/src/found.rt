// A frame's decoding on a code that passed its tests.
ghost use Rattle.std.specs.Prelude.{◌≡◌, false, not, ◌&&◌, ◌*◌, ◌≤◌, [], ◌∷◌, length};
ghost use Rattle.calls.specs.Refusal.{first_of, answered};
ghost use Rattle.calls.specs.Parts.{written, posted, counted};
ghost use Rattle.words.specs.K.{k_of};
ghost use Rattle.layouts.specs.Symbols.{padded_bits, padding_used, own_bits};
ghost use Rattle.rounds.specs.Work.{vectors_length};
ghost use Rattle.decoders.specs.BeliefPropagation.{wide};
ghost use Rattle.frames.specs.Found.{frame_metrics, frame_satisfied, frame_rounds, frame_posteriors, asks_list, frame_word, frame_tests, frame_bits};
ghost use Rattle.frames.specs.SlotSymbols.{slot_symbols};

use crate::decode::Fallback;
use crate::layout;
use calls::Refusal;
use calls::copy::copy;
use decoders::{Decoding, belief_propagation, list_decoding};
use layouts::{BitMap, Tables, padding_used};
use lent::Sound;
use priors::metrics::with_priors;
use priors::present;
use words::positions::own_symbols;

// Of a frame: the known symbols, the rounds, and the list's width.
const KNOWN: u32 = 52;

const ROUNDS: u32 = 100;

const WIDTH: usize = 10;

// Whether the list is asked where the rounds end without a word.
fn asks_list(fallback: Fallback, prior: &[f32]) -> bool
    ensures { result ≡ asks_list fallback prior.now }
{
    match fallback {
        Fallback::Bp => false,
        Fallback::List => present(prior),
    }
}

// Belief propagation's word, or the list's where there is none and the list is asked.
fn find_word(
    code: &Sound,
    metrics: &[f32],
    list_asked: bool,
    word: &mut [u8],
    posteriors: &mut [f32],
    h: &mut [u8],
    vectors: &mut [f32],
) -> Decoding
    requires narrow { wide code.now.code.m code.now.parts.row ≡ false }
    requires outputs { (length word.old ≡ code.now.code.n) × (length posteriors.old ≡ code.now.code.n * 32) }
    requires lengths { (length vectors.old ≡ vectors_length) × (length metrics.now ≡ code.now.code.n * 32) × (length h.old ≡ 65536) }
    ensures answer { result.answer ≡ answered (first_of ((not (frame_satisfied code.now metrics.now) && not list_asked, Refusal.NoWord) ∷ [])) tt }
    ensures rounds { result.rounds ≡ frame_rounds code.now metrics.now }
    ensures word_after { word.new ≡ written result.answer word.old (frame_word code.now metrics.now) }
    ensures posteriors_after { posteriors.new ≡ frame_posteriors code.now metrics.now }
{
    let decoding = belief_propagation::propagate(
        code, metrics, KNOWN, ROUNDS, word, posteriors, h, vectors,
    );
    if list_asked & decoding.answer.is_err() {
        list_decoding::run(code, metrics, posteriors, WIDTH, word, h);
        return Decoding {
            answer: Ok(()),
            rounds: decoding.rounds,
        };
    }
    decoding
}

// The bits of a word, where those of the padding are 0.
fn take_back(code: &Sound, tables: &Tables, word: &[u8], bits: &mut [u8]) -> Result<(), Refusal>
    requires lengths { (length word.now ≡ code.now.code.n) × (length bits.old ≡ 256) }
    requires enough { 52 ≤ k_of code.now }
    ensures answer { result ≡ answered (first_of ((padding_used (padded_bits tables.now (slot_symbols code.now word.now)), Refusal.Padding) ∷ [])) tt }
    ensures bits_after { bits.new ≡ written result bits.old (own_bits (padded_bits tables.now (slot_symbols code.now word.now))) }
{
    let lent = code.lent;
    // A project rule, no heap: room for 256 symbols, of which a code has n.
    let mut room = [0u8; 256];
    let syms = &mut room[..lent.numbers.n];
    own_symbols(code, word, syms);
    let padded = tables.padded_bits(&syms[..52]);
    if padding_used(&padded) {
        return Err(Refusal::Padding);
    }
    copy(&padded[..256], bits);
    Ok(())
}

// The frame's bits, the count of rounds and the last posteriors. The metrics with the priors are left in `with`; the work parts are not cleared.
pub fn decode_on(
    code: &Sound,
    map: BitMap,
    metrics: &[f32],
    prior: &[f32],
    fallback: Fallback,
    bits: &mut [u8],
    posteriors: &mut [f32],
    h: &mut [u8],
    vectors: &mut [f32],
    with: &mut [f32],
) -> Decoding
    requires enough { 52 ≤ k_of code.now }
    requires outputs { (length bits.old ≡ 256) × (length posteriors.old ≡ code.now.code.n * 32) }
    requires lengths { (length vectors.old ≡ vectors_length) × (length metrics.now ≡ code.now.code.n * 32) × (length h.old ≡ 65536) × (length with.old ≡ code.now.code.n * 32) }
    ensures answer { result.answer ≡ answered (first_of (frame_tests code.now map (frame_metrics code.now map metrics.now prior.now) prior.now fallback)) tt }
    ensures rounds { result.rounds ≡ counted result.answer (frame_rounds code.now (frame_metrics code.now map metrics.now prior.now)) }
    ensures bits_after { bits.new ≡ written result.answer bits.old (frame_bits code.now map (frame_metrics code.now map metrics.now prior.now)) }
    ensures posteriors_after { posteriors.new ≡ posted result.answer posteriors.old (frame_posteriors code.now (frame_metrics code.now map metrics.now prior.now)) }
{
    if belief_propagation::too_wide(code) {
        return Decoding {
            answer: Err(Refusal::WideCheck),
            rounds: 0,
        };
    }
    let lent = code.lent;
    let tables = layout::tables(code, map);
    let bit = &tables.bit;
    let slot = &tables.slot;
    with_priors(lent.info, bit, slot, prior, metrics, with);
    // A project rule, no heap: room for 256 symbols, of which a code has n.
    let mut room = [0u8; 256];
    let word = &mut room[..lent.numbers.n];
    let decoding = find_word(
        code,
        with,
        asks_list(fallback, prior),
        word,
        posteriors,
        h,
        vectors,
    );
    if decoding.answer.is_err() {
        return decoding;
    }
    Decoding {
        answer: take_back(code, &tables, word, bits),
        rounds: decoding.rounds,
    }
}
