// The exported calls of frames. Rate, layout and fallback are numbers of any size, so that none is cut off. The count of rounds is written whatever the number.
ghost use Rattle.std.specs.Prelude.{◌≡◌, [], length};
ghost use Rattle.calls.specs.Refusal.{first_of, answered, answer_number};
ghost use Rattle.calls.specs.Parts.{worked, written, posted, counted};
ghost use Rattle.layouts.specs.Packing.{bits_to_syms};
ghost use Rattle.rates.specs.Rate.{rate_of};
ghost use Rattle.vectors.specs.Float32.{zero32};
ghost use Rattle.frames.specs.BitsToSyms.{bits_to_syms_refusals};
ghost use Rattle.frames.specs.Decode.{default_fallback, decoded_bits, decoded_rounds, decoded_posteriors};
ghost use Rattle.frames.specs.EncodeBits.{default_rate, default_layout};
ghost use Rattle.frames.specs.FrameLayout.{frame_layout};
ghost use Rattle.frames.specs.Tones.{tones_of};
ghost use Rattle.abi.specs.Answers.{encode_answer, frame_answer};

use crate::{decoded, number_of};
use frames::decode;

// Bits to symbols, five to a symbol.
#[unsafe(no_mangle)]
pub extern "C" fn hazgunek_bits_to_syms(bits: &[u8], syms: &mut [u8]) -> u8
    ensures number { result ≡ answer_number (answered (first_of (bits_to_syms_refusals (length bits.now) (length syms.old))) (tt {0})) }
    ensures syms_after { syms.new ≡ written (answered (first_of (bits_to_syms_refusals (length bits.now) (length syms.old))) (tt {0})) syms.old (bits_to_syms bits.now) }
{
    number_of(frames::bits_to_syms(bits, syms))
}

// The tones of 256 bits, of each of which the lowest counts.
#[unsafe(no_mangle)]
pub extern "C" fn hazgunek_encode_bits_at(
    rate: usize,
    layout: usize,
    bits: &[u8],
    tones: &mut [u8],
    words: &mut [u16],
    bytes: &mut [u8],
) -> u8
    ensures number { result ≡ answer_number (encode_answer rate layout bits.now tones.old words.old bytes.old) }
    ensures tones_after { tones.new ≡ written (encode_answer rate layout bits.now tones.old words.old bytes.old) tones.old (tones_of (rate_of rate) (frame_layout layout) bits.now) }
    ensures words_after { words.new ≡ worked (encode_answer rate layout bits.now tones.old words.old bytes.old) 0 words.old }
    ensures bytes_after { bytes.new ≡ worked (encode_answer rate layout bits.now tones.old words.old bytes.old) 0 bytes.old }
{
    number_of(frames::encode_bits_at(rate, layout, bits, tones, words, bytes))
}

// The same at rate 1/4.
#[unsafe(no_mangle)]
pub extern "C" fn hazgunek_encode_bits_with(
    layout: usize,
    bits: &[u8],
    tones: &mut [u8],
    words: &mut [u16],
    bytes: &mut [u8],
) -> u8
    ensures number { result ≡ answer_number (encode_answer default_rate layout bits.now tones.old words.old bytes.old) }
    ensures tones_after { tones.new ≡ written (encode_answer default_rate layout bits.now tones.old words.old bytes.old) tones.old (tones_of (rate_of default_rate) (frame_layout layout) bits.now) }
    ensures words_after { words.new ≡ worked (encode_answer default_rate layout bits.now tones.old words.old bytes.old) 0 words.old }
    ensures bytes_after { bytes.new ≡ worked (encode_answer default_rate layout bits.now tones.old words.old bytes.old) 0 bytes.old }
{
    number_of(frames::encode_bits_with(layout, bits, tones, words, bytes))
}

// The same in the default layout.
#[unsafe(no_mangle)]
pub extern "C" fn hazgunek_encode_bits(
    bits: &[u8],
    tones: &mut [u8],
    words: &mut [u16],
    bytes: &mut [u8],
) -> u8
    ensures number { result ≡ answer_number (encode_answer default_rate default_layout bits.now tones.old words.old bytes.old) }
    ensures tones_after { tones.new ≡ written (encode_answer default_rate default_layout bits.now tones.old words.old bytes.old) tones.old (tones_of (rate_of default_rate) (frame_layout default_layout) bits.now) }
    ensures words_after { words.new ≡ worked (encode_answer default_rate default_layout bits.now tones.old words.old bytes.old) 0 words.old }
    ensures bytes_after { bytes.new ≡ worked (encode_answer default_rate default_layout bits.now tones.old words.old bytes.old) 0 bytes.old }
{
    number_of(frames::encode_bits(bits, tones, words, bytes))
}

// A frame's bits from its metrics and priors.
#[unsafe(no_mangle)]
pub extern "C" fn hazgunek_decode_bits_prior_at(
    rate: usize,
    layout: usize,
    metrics: &[f32],
    prior: &[f32],
    fallback: usize,
    rounds: &mut u32,
    bits: &mut [u8],
    posteriors: &mut [f32],
    words: &mut [u16],
    bytes: &mut [u8],
    floats: &mut [f32],
) -> u8
    ensures number { result ≡ answer_number (frame_answer rate layout metrics.now prior.now fallback bits.old posteriors.old words.old bytes.old floats.old) }
    ensures rounds_after { rounds.new ≡ counted (frame_answer rate layout metrics.now prior.now fallback bits.old posteriors.old words.old bytes.old floats.old) (decoded_rounds (rate_of rate) (frame_layout layout) metrics.now prior.now) }
    ensures bits_after { bits.new ≡ written (frame_answer rate layout metrics.now prior.now fallback bits.old posteriors.old words.old bytes.old floats.old) bits.old (decoded_bits (rate_of rate) (frame_layout layout) metrics.now prior.now) }
    ensures posteriors_after { posteriors.new ≡ posted (frame_answer rate layout metrics.now prior.now fallback bits.old posteriors.old words.old bytes.old floats.old) posteriors.old (decoded_posteriors (rate_of rate) (frame_layout layout) metrics.now prior.now) }
    ensures words_after { words.new ≡ worked (frame_answer rate layout metrics.now prior.now fallback bits.old posteriors.old words.old bytes.old floats.old) 0 words.old }
    ensures bytes_after { bytes.new ≡ worked (frame_answer rate layout metrics.now prior.now fallback bits.old posteriors.old words.old bytes.old floats.old) 0 bytes.old }
    ensures floats_after { floats.new ≡ worked (frame_answer rate layout metrics.now prior.now fallback bits.old posteriors.old words.old bytes.old floats.old) zero32 floats.old }
{
    let decoding = decode::decode_bits_prior_at(
        rate, layout, metrics, prior, fallback, bits, posteriors, words, bytes, floats,
    );
    decoded(decoding, rounds)
}

// The same at rate 1/4.
#[unsafe(no_mangle)]
pub extern "C" fn hazgunek_decode_bits_prior_fb(
    layout: usize,
    metrics: &[f32],
    prior: &[f32],
    fallback: usize,
    rounds: &mut u32,
    bits: &mut [u8],
    posteriors: &mut [f32],
    words: &mut [u16],
    bytes: &mut [u8],
    floats: &mut [f32],
) -> u8
    ensures number { result ≡ answer_number (frame_answer default_rate layout metrics.now prior.now fallback bits.old posteriors.old words.old bytes.old floats.old) }
    ensures rounds_after { rounds.new ≡ counted (frame_answer default_rate layout metrics.now prior.now fallback bits.old posteriors.old words.old bytes.old floats.old) (decoded_rounds (rate_of default_rate) (frame_layout layout) metrics.now prior.now) }
    ensures bits_after { bits.new ≡ written (frame_answer default_rate layout metrics.now prior.now fallback bits.old posteriors.old words.old bytes.old floats.old) bits.old (decoded_bits (rate_of default_rate) (frame_layout layout) metrics.now prior.now) }
    ensures posteriors_after { posteriors.new ≡ posted (frame_answer default_rate layout metrics.now prior.now fallback bits.old posteriors.old words.old bytes.old floats.old) posteriors.old (decoded_posteriors (rate_of default_rate) (frame_layout layout) metrics.now prior.now) }
    ensures words_after { words.new ≡ worked (frame_answer default_rate layout metrics.now prior.now fallback bits.old posteriors.old words.old bytes.old floats.old) 0 words.old }
    ensures bytes_after { bytes.new ≡ worked (frame_answer default_rate layout metrics.now prior.now fallback bits.old posteriors.old words.old bytes.old floats.old) 0 bytes.old }
    ensures floats_after { floats.new ≡ worked (frame_answer default_rate layout metrics.now prior.now fallback bits.old posteriors.old words.old bytes.old floats.old) zero32 floats.old }
{
    let decoding = decode::decode_bits_prior_fb(
        layout, metrics, prior, fallback, bits, posteriors, words, bytes, floats,
    );
    decoded(decoding, rounds)
}

// The same by belief propagation alone.
#[unsafe(no_mangle)]
pub extern "C" fn hazgunek_decode_bits_prior_with(
    layout: usize,
    metrics: &[f32],
    prior: &[f32],
    rounds: &mut u32,
    bits: &mut [u8],
    posteriors: &mut [f32],
    words: &mut [u16],
    bytes: &mut [u8],
    floats: &mut [f32],
) -> u8
    ensures number { result ≡ answer_number (frame_answer default_rate layout metrics.now prior.now default_fallback bits.old posteriors.old words.old bytes.old floats.old) }
    ensures rounds_after { rounds.new ≡ counted (frame_answer default_rate layout metrics.now prior.now default_fallback bits.old posteriors.old words.old bytes.old floats.old) (decoded_rounds (rate_of default_rate) (frame_layout layout) metrics.now prior.now) }
    ensures bits_after { bits.new ≡ written (frame_answer default_rate layout metrics.now prior.now default_fallback bits.old posteriors.old words.old bytes.old floats.old) bits.old (decoded_bits (rate_of default_rate) (frame_layout layout) metrics.now prior.now) }
    ensures posteriors_after { posteriors.new ≡ posted (frame_answer default_rate layout metrics.now prior.now default_fallback bits.old posteriors.old words.old bytes.old floats.old) posteriors.old (decoded_posteriors (rate_of default_rate) (frame_layout layout) metrics.now prior.now) }
    ensures words_after { words.new ≡ worked (frame_answer default_rate layout metrics.now prior.now default_fallback bits.old posteriors.old words.old bytes.old floats.old) 0 words.old }
    ensures bytes_after { bytes.new ≡ worked (frame_answer default_rate layout metrics.now prior.now default_fallback bits.old posteriors.old words.old bytes.old floats.old) 0 bytes.old }
    ensures floats_after { floats.new ≡ worked (frame_answer default_rate layout metrics.now prior.now default_fallback bits.old posteriors.old words.old bytes.old floats.old) zero32 floats.old }
{
    let decoding = decode::decode_bits_prior_with(
        layout, metrics, prior, bits, posteriors, words, bytes, floats,
    );
    decoded(decoding, rounds)
}

// The same in the default layout.
#[unsafe(no_mangle)]
pub extern "C" fn hazgunek_decode_bits_prior(
    metrics: &[f32],
    prior: &[f32],
    rounds: &mut u32,
    bits: &mut [u8],
    posteriors: &mut [f32],
    words: &mut [u16],
    bytes: &mut [u8],
    floats: &mut [f32],
) -> u8
    ensures number { result ≡ answer_number (frame_answer default_rate default_layout metrics.now prior.now default_fallback bits.old posteriors.old words.old bytes.old floats.old) }
    ensures rounds_after { rounds.new ≡ counted (frame_answer default_rate default_layout metrics.now prior.now default_fallback bits.old posteriors.old words.old bytes.old floats.old) (decoded_rounds (rate_of default_rate) (frame_layout default_layout) metrics.now prior.now) }
    ensures bits_after { bits.new ≡ written (frame_answer default_rate default_layout metrics.now prior.now default_fallback bits.old posteriors.old words.old bytes.old floats.old) bits.old (decoded_bits (rate_of default_rate) (frame_layout default_layout) metrics.now prior.now) }
    ensures posteriors_after { posteriors.new ≡ posted (frame_answer default_rate default_layout metrics.now prior.now default_fallback bits.old posteriors.old words.old bytes.old floats.old) posteriors.old (decoded_posteriors (rate_of default_rate) (frame_layout default_layout) metrics.now prior.now) }
    ensures words_after { words.new ≡ worked (frame_answer default_rate default_layout metrics.now prior.now default_fallback bits.old posteriors.old words.old bytes.old floats.old) 0 words.old }
    ensures bytes_after { bytes.new ≡ worked (frame_answer default_rate default_layout metrics.now prior.now default_fallback bits.old posteriors.old words.old bytes.old floats.old) 0 bytes.old }
    ensures floats_after { floats.new ≡ worked (frame_answer default_rate default_layout metrics.now prior.now default_fallback bits.old posteriors.old words.old bytes.old floats.old) zero32 floats.old }
{
    let decoding = decode::decode_bits_prior(
        metrics, prior, bits, posteriors, words, bytes, floats,
    );
    decoded(decoding, rounds)
}

// The same blind, with no prior.
#[unsafe(no_mangle)]
pub extern "C" fn hazgunek_decode_bits(
    metrics: &[f32],
    rounds: &mut u32,
    bits: &mut [u8],
    posteriors: &mut [f32],
    words: &mut [u16],
    bytes: &mut [u8],
    floats: &mut [f32],
) -> u8
    ensures number { result ≡ answer_number (frame_answer default_rate default_layout metrics.now [] default_fallback bits.old posteriors.old words.old bytes.old floats.old) }
    ensures rounds_after { rounds.new ≡ counted (frame_answer default_rate default_layout metrics.now [] default_fallback bits.old posteriors.old words.old bytes.old floats.old) (decoded_rounds (rate_of default_rate) (frame_layout default_layout) metrics.now []) }
    ensures bits_after { bits.new ≡ written (frame_answer default_rate default_layout metrics.now [] default_fallback bits.old posteriors.old words.old bytes.old floats.old) bits.old (decoded_bits (rate_of default_rate) (frame_layout default_layout) metrics.now []) }
    ensures posteriors_after { posteriors.new ≡ posted (frame_answer default_rate default_layout metrics.now [] default_fallback bits.old posteriors.old words.old bytes.old floats.old) posteriors.old (decoded_posteriors (rate_of default_rate) (frame_layout default_layout) metrics.now []) }
    ensures words_after { words.new ≡ worked (frame_answer default_rate default_layout metrics.now [] default_fallback bits.old posteriors.old words.old bytes.old floats.old) 0 words.old }
    ensures bytes_after { bytes.new ≡ worked (frame_answer default_rate default_layout metrics.now [] default_fallback bits.old posteriors.old words.old bytes.old floats.old) 0 bytes.old }
    ensures floats_after { floats.new ≡ worked (frame_answer default_rate default_layout metrics.now [] default_fallback bits.old posteriors.old words.old bytes.old floats.old) zero32 floats.old }
{
    let decoding = decode::decode_bits(metrics, bits, posteriors, words, bytes, floats);
    decoded(decoding, rounds)
}
