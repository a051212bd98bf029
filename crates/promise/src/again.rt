// A frame decoded, and its bits encoded again: the promise of frames, on the calls themselves.
ghost use Rattle.std.specs.Prelude.{◌≡◌, length};
ghost use Rattle.calls.specs.Refusal.{first_of, answered};
ghost use Rattle.calls.specs.Parts.{worked, written, posted, counted};
ghost use Rattle.vectors.specs.Float32.{zero32};
ghost use Rattle.rates.specs.Rate.{rate_of};
ghost use Rattle.frames.specs.Decode.{decode_answer, decoded_bits, decoded_rounds, decoded_posteriors};
ghost use Rattle.frames.specs.EncodeBits.{encode_bits_refusals};
ghost use Rattle.frames.specs.FrameLayout.{frame_layout};
ghost use Rattle.frames.specs.Tones.{tones_of};
ghost use Rattle.promise.specs.Again.{Again};

use calls::Refusal;
use decoders::Decoding;
use frames::decode::decode_bits_prior_at;
use frames::encode_bits_at;

// What the decoding answered, and what the encoding of the bits that it left.
#[derive(Clone, Copy, Debug, PartialEq, Eq)]
pub struct Answers {
    pub decoding: Decoding,
    pub encoding: Result<(), Refusal>,
}

// Decodes a frame, and encodes what then stands in `bits` at the same rate and layout.
pub fn again(
    rate: usize,
    layout: usize,
    metrics: &[f32],
    prior: &[f32],
    fallback: usize,
    bits: &mut [u8],
    tones: &mut [u8],
    posteriors: &mut [f32],
    words: &mut [u16],
    bytes: &mut [u8],
    floats: &mut [f32],
) -> Answers
    ensures promised { Again rate layout metrics.now prior.now (length tones.old) result tones.new }
    ensures decoding { result.decoding.answer ≡ decode_answer rate layout metrics.now prior.now fallback (length bits.old) (length posteriors.old) (length words.old) (length bytes.old) (length floats.old) }
    ensures rounds { result.decoding.rounds ≡ counted result.decoding.answer (decoded_rounds (rate_of rate) (frame_layout layout) metrics.now prior.now) }
    ensures encoding { result.encoding ≡ answered (first_of (encode_bits_refusals rate layout (length bits.new) (length tones.old) (length words.new) (length bytes.new))) tt }
    ensures bits_after { bits.new ≡ written result.decoding.answer bits.old (decoded_bits (rate_of rate) (frame_layout layout) metrics.now prior.now) }
    ensures tones_after { tones.new ≡ written result.encoding tones.old (tones_of (rate_of rate) (frame_layout layout) bits.new) }
    ensures posteriors_after { posteriors.new ≡ posted result.decoding.answer posteriors.old (decoded_posteriors (rate_of rate) (frame_layout layout) metrics.now prior.now) }
    ensures words_after { words.new ≡ worked result.encoding 0 (worked result.decoding.answer 0 words.old) }
    ensures bytes_after { bytes.new ≡ worked result.encoding 0 (worked result.decoding.answer 0 bytes.old) }
    ensures floats_after { floats.new ≡ worked result.decoding.answer zero32 floats.old }
{
    let decoding = decode_bits_prior_at(
        rate, layout, metrics, prior, fallback, bits, posteriors, words, bytes, floats,
    );
    let encoding = encode_bits_at(rate, layout, bits, tones, words, bytes);
    Answers { decoding, encoding }
}
