// The numbers of a case, taken one after another.
ghost use Rattle.std.specs.Prelude.{◌≡◌, ◌≤◌, ◌<◌, ◌∷◌, ℕ, List, IfOk, OnErr, []};

use crate::case::CaseError;
use crate::code::MOST;
use std::num::TryFromIntError;

#[derive(Drop)]
pub struct Fields<'a> {
    pub rest: &'a [u64],
}

impl Fields<'_> {
    pub fn next(&mut self) -> Result<u64, CaseError>
        ensures ok { IfOk result (λ x. self.old.rest.now ≡ x ∷ self.new.rest.now) }
        ensures err { OnErr result (self.old.rest.now ≡ []) }
    {
        let (first, rest) = self.rest.split_first().ok_or(CaseError::NotUnderstood)?;
        self.rest = rest;
        Ok(*first)
    }

    // One that the type holds.
    pub fn number<T: TryFrom<u64, Error = TryFromIntError>>(&mut self) -> Result<T, CaseError> {
        Ok(T::try_from(self.next()?)?)
    }

    // So many entries, at most one more than a call takes.
    pub fn count(&mut self) -> Result<usize, CaseError>
        ensures at_most { IfOk result (λ n. n ≤ 257) }
        ensures taken { IfOk result (λ n. self.old.rest.now ≡ n ∷ self.new.rest.now) }
    {
        Ok(self.between(0, MOST)? as usize)
    }

    pub fn between(&mut self, least: u64, most: u64) -> Result<u64, CaseError>
        ensures bounds { IfOk result (λ x. (least ≤ x) × (x ≤ most)) }
        ensures taken { IfOk result (λ x. self.old.rest.now ≡ x ∷ self.new.rest.now) }
        ensures err { OnErr result ((x : ℕ) (rest : List ℕ) → self.old.rest.now ≡ x ∷ rest → least ≤ x → most < x) }
    {
        match self.next()? {
            x if least <= x && x <= most => Ok(x),
            _ => Err(CaseError::NotUnderstood),
        }
    }
}
