// What a decoding leaves in its output parts.
ghost use Rattle.std.specs.Prelude.{◌≡◌, ◌+◌, ◌*◌, ◌≤◌, length, take, replicate};
ghost use Rattle.lists.specs.Chain.{chain};
ghost use Rattle.calls.specs.Parts.{written};
ghost use Rattle.rounds.specs.Work.{vectors_length, posts};
ghost use Rattle.decoders.specs.BeliefPropagation.{ended_by};

use crate::Decoding;
use calls::Refusal;
use calls::copy::copy;
use rounds::rounds::Ended;
use rounds::rows::POSTERIORS;

pub fn copy_posteriors(n: usize, vectors: &[f32], posteriors: &mut [f32])
    requires { (n ≤ 256) × (length vectors.now ≡ vectors_length) × (length posteriors.old ≡ n * 32) }
    ensures { posteriors.new ≡ chain n (posts vectors.now) }
{
    let from = POSTERIORS * 32;
    copy(&vectors[from..from + n * 32], posteriors);
}

// What a decoding answers after its rounds: the word is written where one of them satisfied all checks. The decisions in front of h go.
pub fn finish(ended: Ended, h: &mut [u8], word: &mut [u8]) -> Decoding
    requires { length word.old ≤ length h.old }
    ensures answer { result.answer ≡ ended_by ended.satisfied }
    ensures rounds { result.rounds ≡ ended.rounds }
    ensures word_after { word.new ≡ written result.answer word.old (take (length word.old) h.old) }
    ensures h_after { h.new ≡ replicate (length h.old) 0 }
{
    if ended.satisfied {
        let n = word.len();
        copy(&h[..n], word);
        h.fill(0);
        return Decoding {
            answer: Ok(()),
            rounds: ended.rounds,
        };
    }
    h.fill(0);
    Decoding {
        answer: Err(Refusal::NoWord),
        rounds: ended.rounds,
    }
}
