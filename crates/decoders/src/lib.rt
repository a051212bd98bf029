// The decoders of a lent code. The public calls stand here; the two modules that are public have what they do on a code that passed its tests.
#![tactic(auto)]

ghost use Rattle.std.specs.Prelude.{◌≡◌, length};
ghost use Rattle.calls.specs.Parts.{worked, written, posted, counted};
ghost use Rattle.lent.specs.LentCode.{graph_of};
ghost use Rattle.vectors.specs.Float32.{zero32};
ghost use Rattle.candidates.specs.ListWord.{list_word};
ghost use Rattle.decoders.specs.BeliefPropagation.{rounds};
ghost use Rattle.decoders.specs.DecodeSoft.{soft_answer, last_decisions, last_posteriors};
ghost use Rattle.decoders.specs.Decode.{decode_answer};
ghost use Rattle.decoders.specs.ListDecode.{list_answer};
ghost use Rattle.decoders.specs.Promise.{Promised};

use calls::Refusal;
use lent::Lent;
use rounds::rows::VECTORS;

pub mod belief_propagation;
pub mod list_decoding;
mod output;
mod refusals;

// What a decoding answers: whether there is a word, and how many rounds were made.
#[derive(Clone, Copy, Debug, PartialEq, Eq)]
pub struct Decoding {
    pub answer: Result<(), Refusal>,
    pub rounds: u32,
}

// Belief propagation: the decisions of the first round up to the limit that satisfies all checks, and the last round's posteriors. `soft_given` (proofs/Given.antt) makes
// of the clauses the one term of which the promise speaks (specs/Decodes.antt).
pub fn decode_soft(
    code: &Lent,
    metrics: &[f32],
    known: u32,
    limit: u32,
    word: &mut [u8],
    posteriors: &mut [f32],
    h: &mut [u8],
    pivots: &mut [u16],
    vectors: &mut [f32],
) -> Decoding
    ensures answer { result.answer ≡ soft_answer code.now.code code.now.parts metrics.now known limit (length word.old) (length posteriors.old) (length h.old) (length pivots.old) (length vectors.old) }
    ensures rounds { result.rounds ≡ counted result.answer (rounds code.now.code code.now.parts metrics.now known limit) }
    ensures word_after { word.new ≡ written result.answer word.old (last_decisions code.now.code code.now.parts metrics.now known limit) }
    ensures posteriors_after { posteriors.new ≡ posted result.answer posteriors.old (last_posteriors code.now.code code.now.parts metrics.now known limit) }
    ensures h_after { h.new ≡ worked result.answer 0 h.old }
    ensures pivots_after { pivots.new ≡ worked result.answer 0 pivots.old }
    ensures vectors_after { vectors.new ≡ worked result.answer zero32 vectors.old }
{
    let rest = refusals::misfit(code.numbers.n, metrics.len())
        | ((word.len() != code.numbers.n)
            | (refusals::misfit(code.numbers.n, posteriors.len()) | (vectors.len() != VECTORS)));
    match refusals::accepted(code, limit, h, pivots, vectors, rest) {
        Err(refusal) => Decoding {
            answer: Err(refusal),
            rounds: 0,
        },
        Ok(sound) => {
            belief_propagation::propagate(
                &sound, metrics, known, limit, word, posteriors, h, vectors,
            )
        }
    }
}

// The same without the posteriors: `decode_given` (proofs/Given.antt). No plainer as one: the other has a part for them, and so its own lengths.
pub fn decode(
    code: &Lent,
    metrics: &[f32],
    known: u32,
    limit: u32,
    word: &mut [u8],
    h: &mut [u8],
    pivots: &mut [u16],
    vectors: &mut [f32],
) -> Decoding
    ensures answer { result.answer ≡ decode_answer code.now.code code.now.parts metrics.now known limit (length word.old) (length h.old) (length pivots.old) (length vectors.old) }
    ensures rounds { result.rounds ≡ counted result.answer (rounds code.now.code code.now.parts metrics.now known limit) }
    ensures word_after { word.new ≡ written result.answer word.old (last_decisions code.now.code code.now.parts metrics.now known limit) }
    ensures h_after { h.new ≡ worked result.answer 0 h.old }
    ensures pivots_after { pivots.new ≡ worked result.answer 0 pivots.old }
    ensures vectors_after { vectors.new ≡ worked result.answer zero32 vectors.old }
{
    let rest = refusals::misfit(code.numbers.n, metrics.len())
        | ((word.len() != code.numbers.n) | (vectors.len() != VECTORS));
    match refusals::accepted(code, limit, h, pivots, vectors, rest) {
        Err(refusal) => Decoding {
            answer: Err(refusal),
            rounds: 0,
        },
        Ok(sound) => {
            let ended = belief_propagation::run(&sound, metrics, known, limit, h, vectors);
            vectors.fill(0.0);
            output::finish(ended, h, word)
        }
    }
}

// The list's word, where no refusal turns the call down.
fn listed(
    code: &Lent,
    metrics: &[f32],
    posteriors: &[f32],
    width: usize,
    word: &mut [u8],
    h: &mut [u8],
    pivots: &mut [u16],
) -> Result<(), Refusal>
    ensures answer { result ≡ list_answer code.now.code code.now.parts metrics.now posteriors.now width (length word.old) (length h.old) (length pivots.old) }
    ensures word_after { word.new ≡ written result word.old (list_word (graph_of code.now) code.now.parts.order posteriors.now metrics.now width) }
    ensures h_after { h.new ≡ worked result 0 h.old }
    ensures pivots_after { pivots.new ≡ worked result 0 pivots.old }
{
    let rest = refusals::misfit(code.numbers.n, metrics.len())
        | (refusals::misfit(code.numbers.n, posteriors.len()) | (word.len() != code.numbers.n));
    let sound = code.accepted(h, pivots, rest)?;
    if (width > 16) | refusals::not_finite(posteriors) {
        return Err(Refusal::Value);
    }
    list_decoding::run(&sound, metrics, posteriors, width, word, h);
    h.fill(0);
    Ok(())
}

// List decoding: the information symbols at their likeliest values by the posteriors, the `width` least sure of them also at the second likeliest, every combination
// encoded and scored by the metrics; the best of these words. `list_given` (proofs/Given.antt) makes of the clauses the one term of which the promise speaks
// (specs/ListDecodes.antt).
pub fn list_decode(
    code: &Lent,
    metrics: &[f32],
    posteriors: &[f32],
    width: usize,
    word: &mut [u8],
    h: &mut [u8],
    pivots: &mut [u16],
) -> Decoding
    ensures answer { result.answer ≡ list_answer code.now.code code.now.parts metrics.now posteriors.now width (length word.old) (length h.old) (length pivots.old) }
    ensures rounds { result.rounds ≡ 0 }
    ensures word_after { word.new ≡ written result.answer word.old (list_word (graph_of code.now) code.now.parts.order posteriors.now metrics.now width) }
    ensures h_after { h.new ≡ worked result.answer 0 h.old }
    ensures pivots_after { pivots.new ≡ worked result.answer 0 pivots.old }
{
    Decoding {
        answer: listed(code, metrics, posteriors, width, word, h, pivots),
        rounds: 0,
    }
}

// What is promised of the decoders: a promise alone, and no code.
pub fn promise()
    ensures { Promised }
{}
