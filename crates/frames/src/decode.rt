// The public calls that decode a frame. Each builds its code in the work parts `words` and `bytes`.
ghost use Rattle.std.specs.Prelude.{◌≡◌, ◌*◌, [], length};
ghost use Rattle.calls.specs.Refusal.{first_of, answered};
ghost use Rattle.calls.specs.Parts.{worked, written, posted, counted};
ghost use Rattle.rates.specs.Rate.{rate_of, IsRate};
ghost use Rattle.vectors.specs.Float32.{zero32};
ghost use Rattle.frames.specs.Decode.{floats_length, asked_of, default_fallback, decode_tests, decode_refusals, decode_answer, decoded_bits, decoded_rounds, decoded_posteriors};
ghost use Rattle.frames.specs.EncodeBits.{default_rate, default_layout};
ghost use Rattle.frames.specs.FrameLayout.{frame_layout};
ghost use Rattle.frames.specs.Work.{words_length, bytes_length};

use crate::found::decode_on;
use crate::layout::FrameLayout;
use crate::{DEFAULT_LAYOUT, DEFAULT_RATE, work};
use calls::Refusal;
use decoders::Decoding;
use rates::Rate;
use rates::slices::{CODE_BYTES, CODE_WORDS, build_in, view};
use rounds::rows::VECTORS;

// Of the work part `floats`: the vectors of the rounds, and a frame's metrics.
pub const FLOATS: usize = VECTORS + 256 * 32;

// What a call takes that names no fallback.
const DEFAULT_FALLBACK: usize = 0;

// What is done where belief propagation ends without a word.
#[derive(Clone, Copy, Debug, PartialEq, Eq)]
pub enum Fallback {
    // Nothing.
    Bp,
    // The list, where there is a prior.
    List,
}

impl Fallback {
    ghost use Rattle.std.specs.Prelude.{◌≡◌, ◌∷◌, [], ltb};
    ghost use Rattle.calls.specs.Refusal.{first_of, answered};
    ghost use Rattle.frames.specs.Decode.{fallback_of};

    // By its number, 0 or 1.
    pub fn of(number: usize) -> Result<Fallback, Refusal>
        ensures { result ≡ answered (first_of ((ltb 1 number, Refusal.RateOrLayout) ∷ [])) (fallback_of number) }
    {
        match number {
            0 => Ok(Fallback::Bp),
            1 => Ok(Fallback::List),
            _ => Err(Refusal::RateOrLayout),
        }
    }
}

// What a call asks for.
#[derive(Clone, Copy, Debug, PartialEq, Eq)]
pub struct Asked {
    pub rate: Rate,
    pub layout: FrameLayout,
    pub fallback: Fallback,
}

// Numbers 1 and 3, by the lengths of the parts.
fn accepted(
    rate: usize,
    layout: usize,
    fallback: usize,
    metrics: usize,
    bits: usize,
    posteriors: usize,
    words: usize,
    bytes: usize,
    floats: usize,
) -> Result<Asked, Refusal>
    ensures { result ≡ answered (first_of (decode_refusals rate layout fallback metrics bits posteriors words bytes floats)) (asked_of rate layout fallback) }
{
    let rate = Rate::of(rate)?;
    let layout = FrameLayout::of(layout)?;
    let fallback = Fallback::of(fallback)?;
    let own = (metrics != rate.n * 32) | ((bits != 256) | (posteriors != rate.n * 32));
    if own | (work::misfit(words, bytes) | (floats != FLOATS)) {
        return Err(Refusal::Length);
    }
    Ok(Asked {
        rate,
        layout,
        fallback,
    })
}

// A frame's bits from its metrics and priors, by the code of a rate, which is built in the work parts and left there.
fn decode(
    rate: Rate,
    layout: FrameLayout,
    metrics: &[f32],
    prior: &[f32],
    fallback: Fallback,
    bits: &mut [u8],
    posteriors: &mut [f32],
    words: &mut [u16],
    bytes: &mut [u8],
    floats: &mut [f32],
) -> Decoding
    requires is_rate { IsRate rate }
    requires lengths { (length metrics.now ≡ rate.n * 32) × (length bits.old ≡ 256) × (length posteriors.old ≡ rate.n * 32) }
    requires work { (length words.old ≡ words_length) × (length bytes.old ≡ bytes_length) × (length floats.old ≡ floats_length) }
    ensures answer { result.answer ≡ answered (first_of (decode_tests rate layout metrics.now prior.now fallback)) tt }
    ensures rounds { result.rounds ≡ counted result.answer (decoded_rounds rate layout metrics.now prior.now) }
    ensures bits_after { bits.new ≡ written result.answer bits.old (decoded_bits rate layout metrics.now prior.now) }
    ensures posteriors_after { posteriors.new ≡ posted result.answer posteriors.old (decoded_posteriors rate layout metrics.now prior.now) }
{
    let (words, more_words) = words.split_at_mut(CODE_WORDS);
    let (bytes, more_bytes) = bytes.split_at_mut(CODE_BYTES);
    let (vectors, with) = floats.split_at_mut(VECTORS);
    let code = build_in(rate, layout.set, words, bytes, more_words, more_bytes);
    let lent = view(code, words, bytes);
    decode_on(
        &lent.known_sound(),
        layout.map,
        metrics,
        prior,
        fallback,
        bits,
        posteriors,
        &mut more_bytes[..65536],
        vectors,
        &mut with[..rate.n * 32],
    )
}

// A frame's bits from its metrics and priors. Only the first 256 priors are added; one past them that is not 0.0 still says that there is a prior.
pub fn decode_bits_prior_at(
    rate: usize,
    layout: usize,
    metrics: &[f32],
    prior: &[f32],
    fallback: usize,
    bits: &mut [u8],
    posteriors: &mut [f32],
    words: &mut [u16],
    bytes: &mut [u8],
    floats: &mut [f32],
) -> Decoding
    ensures answer { result.answer ≡ decode_answer rate layout metrics.now prior.now fallback (length bits.old) (length posteriors.old) (length words.old) (length bytes.old) (length floats.old) }
    ensures rounds { result.rounds ≡ counted result.answer (decoded_rounds (rate_of rate) (frame_layout layout) metrics.now prior.now) }
    ensures bits_after { bits.new ≡ written result.answer bits.old (decoded_bits (rate_of rate) (frame_layout layout) metrics.now prior.now) }
    ensures posteriors_after { posteriors.new ≡ posted result.answer posteriors.old (decoded_posteriors (rate_of rate) (frame_layout layout) metrics.now prior.now) }
    ensures words_after { words.new ≡ worked result.answer 0 words.old }
    ensures bytes_after { bytes.new ≡ worked result.answer 0 bytes.old }
    ensures floats_after { floats.new ≡ worked result.answer zero32 floats.old }
{
    match accepted(
        rate,
        layout,
        fallback,
        metrics.len(),
        bits.len(),
        posteriors.len(),
        words.len(),
        bytes.len(),
        floats.len(),
    ) {
        Err(refusal) => Decoding {
            answer: Err(refusal),
            rounds: 0,
        },
        Ok(asked) => {
            let decoding = decode(
                asked.rate,
                asked.layout,
                metrics,
                prior,
                asked.fallback,
                bits,
                posteriors,
                words,
                bytes,
                floats,
            );
            words.fill(0);
            bytes.fill(0);
            floats.fill(0.0);
            decoding
        }
    }
}

// The same at rate 1/4.
pub fn decode_bits_prior_fb(
    layout: usize,
    metrics: &[f32],
    prior: &[f32],
    fallback: usize,
    bits: &mut [u8],
    posteriors: &mut [f32],
    words: &mut [u16],
    bytes: &mut [u8],
    floats: &mut [f32],
) -> Decoding
    ensures answer { result.answer ≡ decode_answer default_rate layout metrics.now prior.now fallback (length bits.old) (length posteriors.old) (length words.old) (length bytes.old) (length floats.old) }
    ensures rounds { result.rounds ≡ counted result.answer (decoded_rounds (rate_of default_rate) (frame_layout layout) metrics.now prior.now) }
    ensures bits_after { bits.new ≡ written result.answer bits.old (decoded_bits (rate_of default_rate) (frame_layout layout) metrics.now prior.now) }
    ensures posteriors_after { posteriors.new ≡ posted result.answer posteriors.old (decoded_posteriors (rate_of default_rate) (frame_layout layout) metrics.now prior.now) }
    ensures words_after { words.new ≡ worked result.answer 0 words.old }
    ensures bytes_after { bytes.new ≡ worked result.answer 0 bytes.old }
    ensures floats_after { floats.new ≡ worked result.answer zero32 floats.old }
{
    decode_bits_prior_at(
        DEFAULT_RATE,
        layout,
        metrics,
        prior,
        fallback,
        bits,
        posteriors,
        words,
        bytes,
        floats,
    )
}

// The same by belief propagation alone.
pub fn decode_bits_prior_with(
    layout: usize,
    metrics: &[f32],
    prior: &[f32],
    bits: &mut [u8],
    posteriors: &mut [f32],
    words: &mut [u16],
    bytes: &mut [u8],
    floats: &mut [f32],
) -> Decoding
    ensures answer { result.answer ≡ decode_answer default_rate layout metrics.now prior.now default_fallback (length bits.old) (length posteriors.old) (length words.old) (length bytes.old) (length floats.old) }
    ensures rounds { result.rounds ≡ counted result.answer (decoded_rounds (rate_of default_rate) (frame_layout layout) metrics.now prior.now) }
    ensures bits_after { bits.new ≡ written result.answer bits.old (decoded_bits (rate_of default_rate) (frame_layout layout) metrics.now prior.now) }
    ensures posteriors_after { posteriors.new ≡ posted result.answer posteriors.old (decoded_posteriors (rate_of default_rate) (frame_layout layout) metrics.now prior.now) }
    ensures words_after { words.new ≡ worked result.answer 0 words.old }
    ensures bytes_after { bytes.new ≡ worked result.answer 0 bytes.old }
    ensures floats_after { floats.new ≡ worked result.answer zero32 floats.old }
{
    decode_bits_prior_fb(
        layout,
        metrics,
        prior,
        DEFAULT_FALLBACK,
        bits,
        posteriors,
        words,
        bytes,
        floats,
    )
}

// The same in the default layout.
pub fn decode_bits_prior(
    metrics: &[f32],
    prior: &[f32],
    bits: &mut [u8],
    posteriors: &mut [f32],
    words: &mut [u16],
    bytes: &mut [u8],
    floats: &mut [f32],
) -> Decoding
    ensures answer { result.answer ≡ decode_answer default_rate default_layout metrics.now prior.now default_fallback (length bits.old) (length posteriors.old) (length words.old) (length bytes.old) (length floats.old) }
    ensures rounds { result.rounds ≡ counted result.answer (decoded_rounds (rate_of default_rate) (frame_layout default_layout) metrics.now prior.now) }
    ensures bits_after { bits.new ≡ written result.answer bits.old (decoded_bits (rate_of default_rate) (frame_layout default_layout) metrics.now prior.now) }
    ensures posteriors_after { posteriors.new ≡ posted result.answer posteriors.old (decoded_posteriors (rate_of default_rate) (frame_layout default_layout) metrics.now prior.now) }
    ensures words_after { words.new ≡ worked result.answer 0 words.old }
    ensures bytes_after { bytes.new ≡ worked result.answer 0 bytes.old }
    ensures floats_after { floats.new ≡ worked result.answer zero32 floats.old }
{
    decode_bits_prior_with(
        DEFAULT_LAYOUT,
        metrics,
        prior,
        bits,
        posteriors,
        words,
        bytes,
        floats,
    )
}

// The same blind, with no prior.
pub fn decode_bits(
    metrics: &[f32],
    bits: &mut [u8],
    posteriors: &mut [f32],
    words: &mut [u16],
    bytes: &mut [u8],
    floats: &mut [f32],
) -> Decoding
    ensures answer { result.answer ≡ decode_answer default_rate default_layout metrics.now [] default_fallback (length bits.old) (length posteriors.old) (length words.old) (length bytes.old) (length floats.old) }
    ensures rounds { result.rounds ≡ counted result.answer (decoded_rounds (rate_of default_rate) (frame_layout default_layout) metrics.now []) }
    ensures bits_after { bits.new ≡ written result.answer bits.old (decoded_bits (rate_of default_rate) (frame_layout default_layout) metrics.now []) }
    ensures posteriors_after { posteriors.new ≡ posted result.answer posteriors.old (decoded_posteriors (rate_of default_rate) (frame_layout default_layout) metrics.now []) }
    ensures words_after { words.new ≡ worked result.answer 0 words.old }
    ensures bytes_after { bytes.new ≡ worked result.answer 0 bytes.old }
    ensures floats_after { floats.new ≡ worked result.answer zero32 floats.old }
{
    decode_bits_prior(metrics, &[], bits, posteriors, words, bytes, floats)
}
