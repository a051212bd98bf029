// The calls that decode a frame, as the head of data/frames.txt says. Before a call every entry of its output and work parts is 1.
ghost use Rattle.std.specs.Prelude.{◌≡◌, ◌∷◌, [], IfOk, if◌then◌else◌, map, replicate, vec_len};
ghost use Rattle.std.specs.Float.Ieee.{is_nan, of_bits, to_bits, binary32};
ghost use Rattle.calls.specs.Refusal.{answer_number};
ghost use Rattle.replay.specs.Digest.{digest_of};
ghost use Rattle.replay.specs.Frames.{decoded_frame};

use crate::answers::{Answers, Found, WorkPart};
use crate::digest::WorkKind;
use crate::lending::frame_work_parts;
use decoders::Decoding;
use frames::decode;
use std::alloc::{AllocError, Global};

// The parts of a call, as many posteriors as it is given metrics.
#[derive(Drop)]
struct Parts {
    bits: Vec<u8>,
    posteriors: Vec<f32>,
    words: Vec<u16>,
    bytes: Vec<u8>,
    floats: Vec<f32>,
}

impl Parts {
    fn new(alloc: Global, metrics: usize) -> Result<Self, AllocError>
        ensures bits { IfOk result (λ p. p.bits.items ≡ replicate 256 1) }
        ensures posteriors { IfOk result (λ p. p.posteriors.items ≡ replicate metrics (of_bits binary32 1065353216)) }
        ensures work { IfOk result (λ p. (vec_len p.words ≡ 2818) × (vec_len p.bytes ≡ 147968) × (vec_len p.floats ≡ 58368)) }
    {
        let (words, bytes) = frame_work_parts(alloc)?;
        Ok(Parts {
            bits: vec![in alloc; 1u8; 256]?,
            posteriors: vec![in alloc; 1.0f32; metrics]?,
            words,
            bytes,
            floats: vec![in alloc; 1.0f32; 58368]?,
        })
    }

    fn answers(&self, alloc: Global, decoding: Decoding) -> Result<Answers, AllocError>
        ensures { IfOk result (λ r. map (λ f. f.ours) r.found.items ≡ answer_number decoding.answer ∷ decoding.rounds ∷ digest_of self.now.bits.items
            ∷ digest_of (map (λ x. if is_nan x then 2143289344 else to_bits binary32 x) self.now.posteriors.items) ∷ []) }
    {
        let found = [
            Found::number(decoding.answer),
            Found::new("count of rounds", u64::from(decoding.rounds)),
            Found::digest("bits", &self.bits),
            Found::digest("posteriors", &self.posteriors),
        ];
        let work = [
            WorkPart::new("words", WorkKind::FrameWords, &self.words),
            WorkPart::new("bytes", WorkKind::FrameBytes, &self.bytes),
            WorkPart::new("floats", WorkKind::FrameFloats, &self.floats),
        ];
        Answers::new(alloc, &found, &work)
    }
}

// decode_bits_prior_at SENT RATE LAYOUT PRIOR FALLBACK NUMBER ROUNDS BITS POSTERIORS
pub fn decode_bits_prior_at(
    alloc: Global,
    rate: usize,
    layout: usize,
    metrics: &[f32],
    prior: &[f32],
    fallback: usize,
) -> Result<Answers, AllocError>
    ensures { IfOk result (λ r. map (λ f. f.ours) r.found.items ≡ decoded_frame rate layout metrics.now prior.now fallback) }
{
    let mut parts = Parts::new(alloc, metrics.len())?;
    let decoding = decode::decode_bits_prior_at(
        rate,
        layout,
        metrics,
        prior,
        fallback,
        &mut parts.bits,
        &mut parts.posteriors,
        &mut parts.words,
        &mut parts.bytes,
        &mut parts.floats,
    );
    parts.answers(alloc, decoding)
}

// decode_bits_prior_fb SENT LAYOUT PRIOR FALLBACK NUMBER ROUNDS BITS POSTERIORS
pub fn decode_bits_prior_fb(
    alloc: Global,
    layout: usize,
    metrics: &[f32],
    prior: &[f32],
    fallback: usize,
) -> Result<Answers, AllocError>
    ensures { IfOk result (λ r. map (λ f. f.ours) r.found.items ≡ decoded_frame 0 layout metrics.now prior.now fallback) }
{
    let mut parts = Parts::new(alloc, metrics.len())?;
    let decoding = decode::decode_bits_prior_fb(
        layout,
        metrics,
        prior,
        fallback,
        &mut parts.bits,
        &mut parts.posteriors,
        &mut parts.words,
        &mut parts.bytes,
        &mut parts.floats,
    );
    parts.answers(alloc, decoding)
}

// decode_bits_prior_with SENT LAYOUT PRIOR NUMBER ROUNDS BITS POSTERIORS
pub fn decode_bits_prior_with(
    alloc: Global,
    layout: usize,
    metrics: &[f32],
    prior: &[f32],
) -> Result<Answers, AllocError>
    ensures { IfOk result (λ r. map (λ f. f.ours) r.found.items ≡ decoded_frame 0 layout metrics.now prior.now 0) }
{
    let mut parts = Parts::new(alloc, metrics.len())?;
    let decoding = decode::decode_bits_prior_with(
        layout,
        metrics,
        prior,
        &mut parts.bits,
        &mut parts.posteriors,
        &mut parts.words,
        &mut parts.bytes,
        &mut parts.floats,
    );
    parts.answers(alloc, decoding)
}

// decode_bits_prior SENT PRIOR NUMBER ROUNDS BITS POSTERIORS
pub fn decode_bits_prior(
    alloc: Global,
    metrics: &[f32],
    prior: &[f32],
) -> Result<Answers, AllocError>
    ensures { IfOk result (λ r. map (λ f. f.ours) r.found.items ≡ decoded_frame 0 2 metrics.now prior.now 0) }
{
    let mut parts = Parts::new(alloc, metrics.len())?;
    let decoding = decode::decode_bits_prior(
        metrics,
        prior,
        &mut parts.bits,
        &mut parts.posteriors,
        &mut parts.words,
        &mut parts.bytes,
        &mut parts.floats,
    );
    parts.answers(alloc, decoding)
}

// decode_bits SENT NUMBER ROUNDS BITS POSTERIORS
pub fn decode_bits(alloc: Global, metrics: &[f32]) -> Result<Answers, AllocError>
    ensures { IfOk result (λ r. map (λ f. f.ours) r.found.items ≡ decoded_frame 0 2 metrics.now [] 0) }
{
    let mut parts = Parts::new(alloc, metrics.len())?;
    let decoding = decode::decode_bits(
        metrics,
        &mut parts.bits,
        &mut parts.posteriors,
        &mut parts.words,
        &mut parts.bytes,
        &mut parts.floats,
    );
    parts.answers(alloc, decoding)
}
