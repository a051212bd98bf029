// The calls on frames, as the head of data/frames.txt says. Before a call every entry of its output and work parts is 1.
ghost use Rattle.std.specs.Prelude.{◌≡◌, ◌<◌, ◌*◌, ◌%◌, ◌∷◌, [], IfOk, length, map, replicate, vec_len};
ghost use Rattle.calls.specs.Refusal.{first_of, answered, answer_number};
ghost use Rattle.calls.specs.Parts.{written};
ghost use Rattle.layouts.specs.Packing.{bits_to_syms};
ghost use Rattle.frames.specs.BitsToSyms.{bits_to_syms_refusals};
ghost use Rattle.replay.specs.Digest.{digest_of};
ghost use Rattle.replay.specs.Frames.{encoded_frame};

use crate::answers::{Answers, Found, WorkPart};
use crate::digest::WorkKind;
use crate::lending::frame_work_parts;
use calls::Refusal;
use layouts::{BitMap, Tables};
use std::alloc::{AllocError, Global};

// spread I P
#[tactic(auto, using(lists::proofs::Values::values_at), unfolding(layouts::specs::Maps::layout_of, layouts::specs::Maps::pos_of))]
pub fn spread(alloc: Global, i: usize) -> Result<Answers, AllocError>
    requires { i < 260 }
    ensures { IfOk result (λ r. map (λ f. f.ours) r.found.items ≡ 53 * i % 260 ∷ []) }
{
    // By this map no degree is read.
    let tables = Tables::of(BitMap::Spread, &[2; 52]);
    Answers::only(alloc, tables.pos[i])
}

// bits_to_syms COUNT DRAWS LIMIT LENGTH NUMBER SYMS
pub fn bits_to_syms(alloc: Global, bits: &[u8], room: usize) -> Result<Answers, AllocError>
    ensures { let answer = answered (first_of (bits_to_syms_refusals (length bits.now) room)) (tt {0}) in
        IfOk result (λ r. map (λ f. f.ours) r.found.items ≡ answer_number answer ∷ digest_of (written answer (replicate room 1) (bits_to_syms bits.now)) ∷ []) }
{
    let mut syms = vec![in alloc; 1u8; room]?;
    let answer = frames::bits_to_syms(bits, &mut syms);
    let found = [Found::number(answer), Found::digest("syms", &syms)];
    Answers::new(alloc, &found, &[])
}

// The parts of a call that encodes a frame.
#[derive(Drop)]
struct Encoding {
    tones: Vec<u8>,
    words: Vec<u16>,
    bytes: Vec<u8>,
}

impl Encoding {
    fn new(alloc: Global, room: usize) -> Result<Self, AllocError>
        ensures tones { IfOk result (λ e. e.tones.items ≡ replicate room 1) }
        ensures work { IfOk result (λ e. (vec_len e.words ≡ 2818) × (vec_len e.bytes ≡ 147968)) }
    {
        let (words, bytes) = frame_work_parts(alloc)?;
        Ok(Encoding {
            tones: vec![in alloc; 1u8; room]?,
            words,
            bytes,
        })
    }

    fn answers(&self, alloc: Global, answer: Result<(), Refusal>) -> Result<Answers, AllocError>
        ensures { IfOk result (λ r. map (λ f. f.ours) r.found.items ≡ answer_number answer ∷ digest_of self.now.tones.items ∷ []) }
    {
        let found = [Found::number(answer), Found::digest("tones", &self.tones)];
        let work = [
            WorkPart::new("words", WorkKind::FrameWords, &self.words),
            WorkPart::new("bytes", WorkKind::FrameBytes, &self.bytes),
        ];
        Answers::new(alloc, &found, &work)
    }
}

// encode_bits_at RATE LAYOUT COUNT DRAWS LIMIT LENGTH NUMBER TONES
pub fn encode_bits_at(
    alloc: Global,
    rate: usize,
    layout: usize,
    bits: &[u8],
    room: usize,
) -> Result<Answers, AllocError>
    ensures { IfOk result (λ r. map (λ f. f.ours) r.found.items ≡ encoded_frame rate layout bits.now room) }
{
    let mut parts = Encoding::new(alloc, room)?;
    let answer = frames::encode_bits_at(
        rate,
        layout,
        bits,
        &mut parts.tones,
        &mut parts.words,
        &mut parts.bytes,
    );
    parts.answers(alloc, answer)
}

// encode_bits_with LAYOUT COUNT DRAWS LIMIT LENGTH NUMBER TONES
pub fn encode_bits_with(
    alloc: Global,
    layout: usize,
    bits: &[u8],
    room: usize,
) -> Result<Answers, AllocError>
    ensures { IfOk result (λ r. map (λ f. f.ours) r.found.items ≡ encoded_frame 0 layout bits.now room) }
{
    let mut parts = Encoding::new(alloc, room)?;
    let answer = frames::encode_bits_with(
        layout,
        bits,
        &mut parts.tones,
        &mut parts.words,
        &mut parts.bytes,
    );
    parts.answers(alloc, answer)
}

// encode_bits COUNT DRAWS LIMIT LENGTH NUMBER TONES
pub fn encode_bits(alloc: Global, bits: &[u8], room: usize) -> Result<Answers, AllocError>
    ensures { IfOk result (λ r. map (λ f. f.ours) r.found.items ≡ encoded_frame 0 2 bits.now room) }
{
    let mut parts = Encoding::new(alloc, room)?;
    let answer = frames::encode_bits(bits, &mut parts.tones, &mut parts.words, &mut parts.bytes);
    parts.answers(alloc, answer)
}
