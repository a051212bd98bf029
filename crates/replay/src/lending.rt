// What a call is given: the code of a case with its damage, or a frame that was sent, and what goes with it. Before a call every entry of its output and work parts is 1.
ghost use Rattle.std.specs.Prelude.{◌≡◌, IfOk, vec_len};

use crate::case::CaseError;
use crate::code::{Code, Damage, Shape};
use crate::fields::Fields;
use crate::given::{Metrics, Preferences, Prior, change, draw_symbols, read_symbols};
use std::alloc::{AllocError, Global};

// The work parts h and pivots, before a call.
pub fn work_parts(alloc: Global) -> Result<(Vec<u8>, Vec<u16>), AllocError>
    ensures { IfOk result (λ work. (vec_len work.0 ≡ 65536) × (vec_len work.1 ≡ 256)) }
{
    let h = vec![in alloc; 1; 65536]?;
    let pivots = vec![in alloc; 1; 256]?;
    Ok((h, pivots))
}

// CODE DAMAGE
pub fn damaged(alloc: Global, fields: &mut Fields<'_>) -> Result<Code, CaseError> {
    let shape = Shape::read(fields)?;
    let damage = Damage::read(fields)?;
    let mut code = shape.code(alloc)?;
    code.damage(damage)?;
    Ok(code)
}

// The word that `encode` answers to the symbols. One that it refuses is not understood.
fn encoded(alloc: Global, code: &Code, symbols: &[u8]) -> Result<Vec<u8>, CaseError> {
    let mut word = vec![in alloc; 1u8; code.numbers.n]?;
    let (mut h, mut pivots) = work_parts(alloc)?;
    words::encode(&code.lend(), symbols, &mut word, &mut h, &mut pivots).map_err(
        |_| CaseError::NotUnderstood,
    )?;
    Ok(word)
}

// CODE DAMAGE COUNT DRAWS LIMIT PLACE CHANGE. The word is of the code before the damage.
pub fn code_and_changed_word(
    alloc: Global,
    fields: &mut Fields<'_>,
) -> Result<(Code, Vec<u8>), CaseError> {
    let shape = Shape::read(fields)?;
    let damage = Damage::read(fields)?;
    let mut code = shape.code(alloc)?;
    let symbols = read_symbols(alloc, fields)?;
    let mut word = encoded(alloc, &code, &symbols)?;
    change(&mut word, fields)?;
    code.damage(damage)?;
    Ok((code, word))
}

// CODE DAMAGE RULE SHIFT
pub fn code_and_preferences(
    alloc: Global,
    fields: &mut Fields<'_>,
) -> Result<(Code, Vec<i64>), CaseError> {
    let code = damaged(alloc, fields)?;
    let preferences = Preferences::read(fields)?;
    let prefer = preferences.numbers(alloc, &code.shape)?;
    Ok((code, prefer))
}

// CODE DAMAGE RULE DRAWS SPREAD PEAK KNOWN
#[derive(Clone, Copy)]
struct Sending {
    shape: Shape,
    damage: Damage,
    metrics: Metrics,
    known: u64,
}

// The code, the word that was sent, and its metrics. The word is of the code before the damage.
#[derive(Drop)]
pub struct Sent {
    pub code: Code,
    pub word: Vec<u8>,
    pub metrics: Vec<f32>,
}

impl Sending {
    fn read(fields: &mut Fields<'_>) -> Result<Self, CaseError> {
        Ok(Sending {
            shape: Shape::read(fields)?,
            damage: Damage::read(fields)?,
            metrics: Metrics::read(fields)?,
            known: fields.next()?,
        })
    }

    // The first draws, each mod 32, are symbols: as many as KNOWN, or as the code has information positions where that is less. The metrics go on after them.
    fn sent(&self, alloc: Global) -> Result<Sent, CaseError> {
        let mut code = self.shape.code(alloc)?;
        let positions = code.numbers.n.saturating_sub(code.numbers.rank);
        let count = usize::try_from(self.known)?.min(positions);
        let mut generator = self.metrics.generator();
        let symbols = draw_symbols(alloc, &mut generator, count, 32)?;
        let word = encoded(alloc, &code, &symbols)?;
        let metrics = self.metrics.floats(alloc, &mut generator, &word)?;
        code.damage(self.damage)?;
        Ok(Sent {
            code,
            word,
            metrics,
        })
    }
}

// CODE DAMAGE RULE DRAWS SPREAD PEAK KNOWN LIMIT. All are read before the code is built, which takes longer.
pub fn sent_and_limits(
    alloc: Global,
    fields: &mut Fields<'_>,
) -> Result<(Sent, u32, u32), CaseError> {
    let sending = Sending::read(fields)?;
    let known = u32::try_from(sending.known)?;
    let limit = fields.number()?;
    Ok((sending.sent(alloc)?, known, limit))
}

// CODE DAMAGE RULE DRAWS SPREAD PEAK KNOWN RULE DRAWS SPREAD PEAK WIDTH. The second metrics are the posteriors.
pub fn sent_and_posteriors(
    alloc: Global,
    fields: &mut Fields<'_>,
) -> Result<(Sent, Vec<f32>, usize), CaseError> {
    let sending = Sending::read(fields)?;
    let metrics = Metrics::read(fields)?;
    let width = fields.number()?;
    let sent = sending.sent(alloc)?;
    let posteriors = metrics.floats(alloc, &mut metrics.generator(), &sent.word)?;
    Ok((sent, posteriors, width))
}

// The work parts `words` and `bytes` of a frame call, before it.
pub fn frame_work_parts(alloc: Global) -> Result<(Vec<u16>, Vec<u8>), AllocError>
    ensures { IfOk result (λ work. (vec_len work.0 ≡ 2818) × (vec_len work.1 ≡ 147968)) }
{
    let words = vec![in alloc; 1; 2818]?;
    let bytes = vec![in alloc; 1; 147968]?;
    Ok((words, bytes))
}

// RATE LAYOUT RULE DRAWS SPREAD PEAK: the bits of a notice that was sent, and the metrics of its tones.
#[derive(Drop)]
pub struct SentFrame {
    pub bits: Vec<u8>,
    pub metrics: Vec<f32>,
}

impl SentFrame {
    // The first 256 draws, each mod 2, are the bits. The metrics go on after them.
    pub fn read(alloc: Global, fields: &mut Fields<'_>) -> Result<SentFrame, CaseError> {
        let rate = fields.number()?;
        let layout = fields.number()?;
        let metrics = Metrics::read(fields)?;
        let mut generator = metrics.generator();
        let bits = draw_symbols(alloc, &mut generator, 256, 2)?;
        let tones = tones(alloc, rate, layout, &bits)?;
        let metrics = metrics.floats(alloc, &mut generator, &tones)?;
        Ok(SentFrame { bits, metrics })
    }

    // PRIOR
    pub fn prior(&self, alloc: Global, fields: &mut Fields<'_>) -> Result<Vec<f32>, CaseError> {
        Ok(Prior::read(fields)?.floats(alloc, &self.bits)?)
    }
}

// What `encode_bits_at` answers to the bits. A rate or layout that it refuses is not understood.
fn tones(alloc: Global, rate: usize, layout: usize, bits: &[u8]) -> Result<Vec<u8>, CaseError> {
    let n = rates::n_for(rate).map_err(|_| CaseError::NotUnderstood)?;
    let mut tones = vec![in alloc; 1u8; n]?;
    let (mut words, mut bytes) = frame_work_parts(alloc)?;
    frames::encode_bits_at(rate, layout, bits, &mut tones, &mut words, &mut bytes).map_err(
        |_| CaseError::NotUnderstood,
    )?;
    Ok(tones)
}
