// A case: a call's name and decimal numbers, each after a single space. The numbers are the call's arguments and then what the list has for its answers.
ghost use Rattle.std.specs.Prelude.{◌≡◌, ◌↔◌, ◌≤◌, IsTrue, IsErrOf, IfOk, All, false, length, take, drop};
ghost use Rattle.replay.specs.Answers.{beside};
ghost use Rattle.replay.specs.Takes.{takes};
ghost use Rattle.replay.specs.declared.case.CaseError.TheVariants.{NotUnderstood, OutOfMemory};

use crate::answers::{Answer, Answers};
use crate::call::Call;
use crate::fields::Fields;
use std::alloc::{AllocError, Global};
use std::num::{ParseIntError, TryFromIntError};
use std::str::Utf8Error;
use std::{fmt, str};

// Why a line has no answers.
#[derive(Clone, Copy, Debug, PartialEq, Eq)]
pub enum CaseError {
    NotUnderstood,
    OutOfMemory,
}

impl From<AllocError> for CaseError {
    ghost from_gives = { λ _ e. e ≡ OutOfMemory };

    fn from(_error: AllocError) -> Self {
        CaseError::OutOfMemory
    }
}

impl From<Utf8Error> for CaseError {
    ghost from_gives = { λ _ e. e ≡ NotUnderstood };

    fn from(_error: Utf8Error) -> Self {
        CaseError::NotUnderstood
    }
}

impl From<ParseIntError> for CaseError {
    ghost from_gives = { λ _ e. e ≡ NotUnderstood };

    fn from(_error: ParseIntError) -> Self {
        CaseError::NotUnderstood
    }
}

impl From<TryFromIntError> for CaseError {
    ghost from_gives = { λ _ e. e ≡ NotUnderstood };

    fn from(_error: TryFromIntError) -> Self {
        CaseError::NotUnderstood
    }
}

#[derive(Drop)]
pub struct Case {
    pub call: Call,
    pub arguments: Vec<u64>,
    pub answers: Vec<Answer>,
}

impl Case {
    // Makes the call of a line.
    pub fn of_line(alloc: Global, line: &[u8]) -> Result<Self, CaseError> {
        let mut words = str::from_utf8(line)?.split(' ');
        let call = words.next().unwrap_or("").parse::<Call>()?;
        let numbers: Vec<u64> = words.map(number).try_collect(alloc)?;
        Case::of_numbers(alloc, call, &numbers)
    }

    // Where there are too few or too many numbers, the call is not made: it may take long.
    fn of_numbers(alloc: Global, call: Call, numbers: &[u64]) -> Result<Self, CaseError>
        ensures misread { takes call (length numbers.now) ≡ false → IsErrOf result CaseError.NotUnderstood }
    {
        if !call.takes(numbers.len()) {
            return Err(CaseError::NotUnderstood);
        }
        let mut fields = Fields { rest: numbers };
        let ours = call.answers(alloc, &mut fields)?;
        let taken = numbers.len().saturating_sub(fields.rest.len());
        Case::new(alloc, call, numbers, taken, &ours)
    }

    // The numbers that were taken are the arguments, and the list has the others for our answers.
    fn new(
        alloc: Global,
        call: Call,
        numbers: &[u64],
        taken: usize,
        ours: &Answers,
    ) -> Result<Self, CaseError>
        requires { taken ≤ length numbers.now }
        ensures arguments { IfOk result (λ case. case.arguments.items ≡ take taken numbers.now) }
        ensures answers { IfOk result (λ case. case.answers.items ≡ beside ours.now.found.items ours.now.work.items (drop taken numbers.now)) }
    {
        let (arguments, listed) = numbers.split_at(taken);
        Ok(Case {
            call,
            arguments: arguments.to_vec(alloc)?,
            answers: ours.beside(alloc, listed)?,
        })
    }

    pub fn is_same(&self) -> bool
        ensures { IsTrue result ↔ All (λ a. a.ours ≡ a.listed) self.now.answers.items }
    {
        self.answers.iter().all(|answer| answer.is_same())
    }

    // A line for each answer that differs. No plainer: each begins with the list's name and the line, which a case does not hold, and then goes by `Display`.
    pub fn print_differences(&self, rt: &impl Print, name: &str, line: u64) {
        for answer in &self.answers {
            if !answer.is_same() {
                let _ = println!(rt; "{name} line {line}: {self}{answer}");
            }
        }
    }
}

impl fmt::Display for Case {
    fn fmt<W: fmt::Write>(&self, f: &mut fmt::Formatter<W>) -> fmt::Result {
        let call = self.call;
        write!(f, "{call}")?;
        for x in &self.arguments {
            write!(f, " {x}")?;
        }
        Ok(())
    }
}

// `parse` alone would take a sign too.
fn number(word: &str) -> Result<u64, CaseError> {
    if word.starts_with('+') {
        return Err(CaseError::NotUnderstood);
    }
    Ok(word.parse::<u64>()?)
}
