// The calls of the field, each made with the arguments of a case.
ghost use Rattle.std.specs.Prelude.{◌≡◌, ◌<◌, ◌≤◌, ◌∷◌, [], ℕ, List, IfOk, IsErrOf, map, slice_index};
ghost use Rattle.field.specs.Field.{product, inverse};
ghost use Rattle.field.specs.SplitMix64.{drawn};
ghost use Rattle.replay.specs.Answers.{draws_found};

use crate::answers::{Answers, Found, Label};
use crate::case::CaseError;
use crate::fields::Fields;
use crate::given;
use field::gf;
use field::splitmix64::SplitMix64;
use std::alloc::{AllocError, Global};

// mul A B PRODUCT
pub fn mul(alloc: Global, fields: &mut Fields<'_>) -> Result<Answers, CaseError>
    ensures product { let a = slice_index fields.old.rest.now 0 in let b = slice_index fields.old.rest.now 1 in
        IfOk result (λ r. map (λ f. f.ours) r.found.items ≡ product a b ∷ []) }
    ensures misread { IsErrOf result CaseError.NotUnderstood → (a b : ℕ) (rest : List ℕ) → fields.old.rest.now ≡ a ∷ b ∷ rest → a ≤ 31 → 31 < b }
{
    let a = fields.between(0, 31)? as u8;
    let b = fields.between(0, 31)? as u8;
    Ok(Answers::only(alloc, gf::mul(a, b))?)
}

// inv A INVERSE
pub fn inv(alloc: Global, fields: &mut Fields<'_>) -> Result<Answers, CaseError>
    ensures inverse { IfOk result (λ r. map (λ f. f.ours) r.found.items ≡ inverse (slice_index fields.old.rest.now 0) ∷ []) }
    ensures misread { IsErrOf result CaseError.NotUnderstood → (a : ℕ) (rest : List ℕ) → fields.old.rest.now ≡ a ∷ rest → 0 < a → 31 < a }
{
    let a = fields.between(1, 31)? as u8;
    Ok(Answers::only(alloc, gf::inv(a))?)
}

// draws SEED COUNT D1 .. DCOUNT
pub fn draws(alloc: Global, fields: &mut Fields<'_>) -> Result<Answers, CaseError>
    ensures draws { let seed = slice_index fields.old.rest.now 0 in let count = slice_index fields.old.rest.now 1 in
        IfOk result (λ r. r.found.items ≡ draws_found (drawn count seed)) }
    ensures misread { IsErrOf result CaseError.NotUnderstood → (seed count : ℕ) (rest : List ℕ) → fields.old.rest.now ≡ seed ∷ count ∷ rest → 1 ≤ count → 16 < count }
{
    let state = fields.next()?;
    // With no draw there is nothing to compare.
    let count = fields.between(1, 16)? as usize;
    let draws = given::draws(alloc, &mut SplitMix64 { state }, count)?;
    Ok(Answers {
        found: labelled(alloc, &draws)?,
        work: Vec::new(alloc),
    })
}

fn labelled(alloc: Global, draws: &[u64]) -> Result<Vec<Found>, AllocError>
    ensures { IfOk result (λ v. v.items ≡ draws_found draws.now) }
{
    (1..17)
        .zip(draws)
        .map(|(place, ours)| Found {
            label: Label::Draw(place),
            ours: *ours,
        })
        .collect(alloc)
}
