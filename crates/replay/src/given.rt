// What a call is given beside a code, as the heads of the lists in data/ say it.
ghost use Rattle.std.specs.Prelude.{◌≡◌, ◌%◌, ◌<◌, ◌≤◌, ◌∷◌, ◌⊎◌, ◌↔◌, ℕ, List, IfOk, OnErr, IsErrOf, length, map, nat_lt, if◌then◌else◌, slice_index, vec_len};
ghost use Rattle.std.specs.List.{range_with_len};
ghost use Rattle.field.specs.SplitMix64.{after, drawn};
ghost use Rattle.replay.specs.Given.{changed, rule_of, shift_of, preference};

use crate::case::CaseError;
use crate::code::{MOST, Shape};
use crate::fields::Fields;
use field::splitmix64::SplitMix64;
use std::alloc::{AllocError, Global};

// The next draws of the generator.
pub fn draws(
    alloc: Global,
    generator: &mut SplitMix64,
    count: usize,
) -> Result<Vec<u64>, AllocError>
    ensures drawn { IfOk result (λ v. v.items ≡ drawn count generator.old.state) }
    ensures count { IfOk result (λ v. vec_len v ≡ count) }
    ensures next { IfOk result (λ _. generator.new.state ≡ after count generator.old.state) }
{
    let mut draws = vec![in alloc; 0; count]?;
    generator.draws(&mut draws);
    Ok(draws)
}

// As many symbols, each a draw mod `limit`.
pub fn draw_symbols(
    alloc: Global,
    generator: &mut SplitMix64,
    count: usize,
    limit: u64,
) -> Result<Vec<u8>, AllocError>
    requires { (0 < limit) × (limit ≤ 256) }
    ensures symbols { IfOk result (λ v. v.items ≡ map (λ x. x % limit) (drawn count generator.old.state)) }
    ensures count { IfOk result (λ v. vec_len v ≡ count) }
    ensures next { IfOk result (λ _. generator.new.state ≡ after count generator.old.state) }
{
    let draws = draws(alloc, generator, count)?;
    draws.iter().map(|x| (x % limit) as u8).collect(alloc)
}

// COUNT DRAWS LIMIT: the first COUNT draws of SplitMix64 from DRAWS, each mod LIMIT.
pub fn read_symbols(alloc: Global, fields: &mut Fields<'_>) -> Result<Vec<u8>, CaseError>
    ensures symbols { let given = fields.old.rest.now in
        IfOk result (λ v. v.items ≡ map (λ x. x % slice_index given 2) (drawn (slice_index given 0) (slice_index given 1))) }
    ensures at_most { IfOk result (λ v. vec_len v ≤ 257) }
{
    let count = fields.between(0, MOST)? as usize;
    let mut generator = SplitMix64 {
        state: fields.next()?,
    };
    let limit = fields.between(1, 256)?;
    Ok(draw_symbols(alloc, &mut generator, count, limit)?)
}

// PLACE CHANGE: the symbol of the word at PLACE is xored with CHANGE. Nothing is changed where CHANGE is 0.
pub fn change(word: &mut [u8], fields: &mut Fields<'_>) -> Result<(), CaseError>
    ensures ok { let given = fields.old.rest.now in
        IfOk result (λ _. word.new ≡ changed word.old (slice_index given 0) (slice_index given 1)) }
    ensures err { OnErr result (word.new ≡ word.old) }
    ensures misread { OnErr result ((place change : ℕ) (rest : List ℕ) → fields.old.rest.now ≡ place ∷ change ∷ rest → change ≤ 255 → (0 < change) × (length word.old ≤ place)) }
{
    let place = usize::try_from(fields.next()?)?;
    let change = fields.between(0, 255)? as u8;
    if change == 0 {
        return Ok(());
    }
    if place >= word.len() {
        return Err(CaseError::NotUnderstood);
    }
    word[place] ^= change;
    Ok(())
}

// RULE SHIFT: a preference for each variable of a code.
#[derive(Clone, Copy)]
pub enum Preferences {
    Degree,
    Alike,
    Modulo(u8),
    Extremes(u8),
}

impl Preferences {
    pub fn read(fields: &mut Fields<'_>) -> Result<Self, CaseError>
        ensures { let given = fields.old.rest.now in
            IfOk result (λ p. (rule_of p ≡ slice_index given 0) × (shift_of p ≡ slice_index given 1)) }
    {
        match (fields.next()?, fields.next()?) {
            (0, 0) => Ok(Preferences::Degree),
            (1, 0) => Ok(Preferences::Alike),
            (2, shift @ 0..=2) => Ok(Preferences::Modulo(shift as u8)),
            (3, shift @ 0..=2) => Ok(Preferences::Extremes(shift as u8)),
            _ => Err(CaseError::NotUnderstood),
        }
    }

    // They are not understood where a degree is above 256.
    pub fn numbers(&self, alloc: Global, shape: &Shape) -> Result<Vec<i64>, CaseError>
        ensures count { IfOk result (λ v. vec_len v ≡ shape.now.n) }
        ensures numbers { IfOk result (λ v. v.items ≡ map (λ i. preference self.now i (if nat_lt i shape.now.heavy then shape.now.degree else shape.now.light)) (range_with_len 0 shape.now.n)) }
        ensures misread { IsErrOf result CaseError.NotUnderstood ↔ ((256 < shape.now.degree) ⊎ (256 < shape.now.light)) }
    {
        if shape.degree > 256 || shape.light > 256 {
            return Err(CaseError::NotUnderstood);
        }
        let first = shape.heavy;
        let heavy = shape.degree as u16;
        let light = shape.light as u16;
        let numbers = (0..shape.n as u16)
            .map(|v| self.number(v, if usize::from(v) < first { heavy } else { light }))
            .collect(alloc)?;
        Ok(numbers)
    }

    fn number(&self, v: u16, degree: u16) -> i64
        ensures { result ≡ preference self.now v degree }
    {
        match *self {
            Preferences::Degree => i64::from(degree),
            Preferences::Alike => 0,
            Preferences::Modulo(shift) => ((7 * u64::from(v) + u64::from(shift)) % 3) as i64,
            Preferences::Extremes(shift) if (u64::from(v) + u64::from(shift)) % 2 == 0 => i64::MIN,
            Preferences::Extremes(_) => i64::MAX,
        }
    }
}

// How a draw becomes a metric.
#[derive(Clone, Copy)]
enum Rule {
    Eighths,
    Unusual,
    UnusualUnsent,
    Sevenths,
}

// NaN, the infinities, -0.0, the least above 0, the greatest and its negative, and the neighbours of 1e-30.
const UNUSUAL: [f32; 9] = [
    f32::NAN,
    f32::INFINITY,
    f32::NEG_INFINITY,
    -0.0,
    1e-45,
    f32::MAX,
    f32::MIN,
    9.9999994e-31,
    1.0000001e-30,
];

// RULE DRAWS SPREAD PEAK: metrics, or posteriors.
#[derive(Clone, Copy)]
pub struct Metrics {
    rule: Rule,
    pub draws: u64,
    spread: u64,
    peak: u64,
    ghost spread_in_range: { (0 < spread) × (spread ≤ 32768) },
    ghost peak_in_range: { peak ≤ 32767 },
}

impl Metrics {
    pub fn read(fields: &mut Fields<'_>) -> Result<Self, CaseError>
        ensures { let given = fields.old.rest.now in
            IfOk result (λ m. (m.draws ≡ slice_index given 1) × (m.spread ≡ slice_index given 2) × (m.peak ≡ slice_index given 3)) }
    {
        let rule = match fields.next()? {
            0 => Rule::Eighths,
            1 => Rule::Unusual,
            2 => Rule::UnusualUnsent,
            3 => Rule::Sevenths,
            _ => return Err(CaseError::NotUnderstood),
        };
        Ok(Metrics {
            rule,
            draws: fields.next()?,
            spread: fields.between(1, 32768)?,
            peak: fields.between(0, 32767)?,
        })
    }

    pub fn generator(&self) -> SplitMix64
        ensures { result.state ≡ self.now.draws }
    {
        SplitMix64 { state: self.draws }
    }

    // For each symbol of the word that was sent the 32 values in order.
    pub fn floats(
        &self,
        alloc: Global,
        generator: &mut SplitMix64,
        word: &[u8],
    ) -> Result<Vec<f32>, AllocError> {
        let mut floats = Vec::new(alloc);
        for sent in word {
            for (value, draw) in (0..32u8).zip(&draws(alloc, generator, 32)?) {
                floats.push(self.float(draw % self.spread, value == *sent))?;
            }
        }
        Ok(floats)
    }

    // No plainer: that the value is the one sent is part of what the rules read, as the draw is.
    fn float(&self, d: u64, is_sent: bool) -> f32
        requires { d < 32768 }
    {
        match self.rule {
            Rule::Unusual if d < 7 => return UNUSUAL[d as usize],
            Rule::UnusualUnsent if d < 6 && !is_sent => return UNUSUAL[d as usize + 3],
            _ => {}
        }
        let count = if is_sent { d + self.peak } else { d };
        let part = match self.rule {
            Rule::Sevenths => 7.0,
            _ => 8.0,
        };
        f32::from(count as u16) / part
    }
}

// COUNT FROM RULE DRAWS SPREAD PEAK: a prior for the bits of a notice.
#[derive(Clone, Copy)]
pub struct Prior {
    count: usize,
    from: usize,
    metrics: Metrics,
    ghost count_in_range: { count ≤ 257 },
}

impl Prior {
    pub fn read(fields: &mut Fields<'_>) -> Result<Self, CaseError>
        ensures { let given = fields.old.rest.now in
            IfOk result (λ p. (p.count ≡ slice_index given 0) × (p.from ≡ slice_index given 1)) }
    {
        Ok(Prior {
            count: fields.count()?,
            from: fields.count()?,
            metrics: Metrics::read(fields)?,
        })
    }

    // An entry is what a metric would be at the value that was sent, with a minus where the bit is 1. Those before `from` are 0.0.
    pub fn floats(&self, alloc: Global, bits: &[u8]) -> Result<Vec<f32>, AllocError> {
        let mut floats = Vec::new(alloc);
        let draws = draws(alloc, &mut self.metrics.generator(), self.count)?;
        for (i, draw) in draws.iter().enumerate() {
            let x = self.metrics.float(draw % self.metrics.spread, true);
            floats.push(match bits.get(i) {
                _ if i < self.from => 0.0,
                Some(1) => -x,
                _ => x,
            })?;
        }
        Ok(floats)
    }
}
