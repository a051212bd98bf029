// What a call of the library answers, and the same beside what the list has.
ghost use Rattle.calls.specs.Refusal.{answer_number};
ghost use Rattle.std.specs.Prelude.{◌≡◌, ◌≢◌, ◌↔◌, ◌∷◌, [], IsTrue, Some, IfOk, IsErrOf, length, map, vec_len};
ghost use Rattle.replay.specs.Answers.{number_found, found_beside, work_beside, lay, beside};
ghost use Rattle.replay.specs.Digest.{digest_of};
ghost use Rattle.replay.specs.Text.{label_text, answer_text};

use crate::case::CaseError;
use crate::digest::{WorkKind, digest};
use crate::number::Number;
use calls::Refusal;
use std::alloc::{AllocError, Global};
use std::fmt;

// Which of a call's answers it is. A call with one answer has no word for it.
#[derive(Clone, Copy)]
pub enum Label {
    Only,
    Draw(u64),
    Is(&'static str),
    Digest(&'static str),
    WorkPart(&'static str),
}

impl fmt::Display for Label {
    ghost output = { λ label. Some (label_text label) };

    fn fmt<W: fmt::Write>(&self, f: &mut fmt::Formatter<W>) -> fmt::Result {
        match self {
            Label::Only => Ok(()),
            Label::Draw(place) => write!(f, ", draw {place}"),
            Label::Is(what) => write!(f, ", {what}"),
            Label::Digest(part) => write!(f, ", digest of {part}"),
            Label::WorkPart(part) => write!(f, ", digest of the work part {part}"),
        }
    }
}

#[derive(Clone, Copy)]
pub struct Found {
    pub label: Label,
    pub ours: u64,
}

impl Found {
    pub fn new(what: &'static str, ours: u64) -> Self
        ensures { result.ours ≡ ours }
    {
        Found {
            label: Label::Is(what),
            ours,
        }
    }

    // The number of the refusal, 0 for none. No plainer as an `Option`: the list writes 0, here and below.
    pub fn number<T: Copy>(answer: Result<T, Refusal>) -> Self
        ensures { result.ours ≡ answer_number answer }
    {
        let number = match answer {
            Ok(_) => 0,
            Err(refusal) => u8::from(refusal),
        };
        Found::new("number", u64::from(number))
    }

    // What the call finds, 0 for nothing.
    pub fn finding<T: Number>(what: &'static str, answer: Result<T, Refusal>) -> Self
        ensures { result.ours ≡ number_found T.number answer }
    {
        let ours = match answer {
            Ok(found) => found.number(),
            Err(_) => 0,
        };
        Found::new(what, ours)
    }

    pub fn digest<T: Number>(name: &'static str, part: &[T]) -> Self
        ensures { result.ours ≡ digest_of (map T.number part.now) }
    {
        Found {
            label: Label::Digest(name),
            ours: u64::from(digest(part)),
        }
    }

    fn beside(&self, listed: u64) -> Answer
        ensures { result ≡ found_beside self.now listed }
    {
        Answer {
            label: self.label,
            ours: self.ours,
            listed,
        }
    }
}

// A work part after a call.
#[derive(Clone, Copy)]
pub struct WorkPart {
    pub name: &'static str,
    pub kind: WorkKind,
    pub ours: u16,
}

impl WorkPart {
    pub fn new<T: Number>(name: &'static str, kind: WorkKind, part: &[T]) -> Self
        ensures kind { result.kind ≡ kind }
        ensures ours { result.ours ≡ digest_of (map T.number part.now) }
    {
        WorkPart {
            name,
            kind,
            ours: digest(part),
        }
    }

    // The list has no work part, since what is left in one follows from the number. No plainer as a `Refusal`: the number is the list's, which need not be one.
    fn beside(&self, number: u64) -> Answer
        ensures { result ≡ work_beside number self.now }
    {
        let listed = match number {
            1..=3 => self.kind.lent(),
            _ => self.kind.cleared(),
        };
        Answer {
            label: Label::WorkPart(self.name),
            ours: u64::from(self.ours),
            listed,
        }
    }
}

#[derive(Clone, Copy)]
pub struct Answer {
    pub label: Label,
    pub ours: u64,
    pub listed: u64,
}

impl Answer {
    pub fn is_same(&self) -> bool
        ensures { IsTrue result ↔ (self.now.ours ≡ self.now.listed) }
    {
        self.ours == self.listed
    }
}

impl fmt::Display for Answer {
    ghost output = { λ answer. Some (answer_text answer) };

    fn fmt<W: fmt::Write>(&self, f: &mut fmt::Formatter<W>) -> fmt::Result {
        let label = self.label;
        let ours = self.ours;
        let listed = self.listed;
        write!(f, "{label} is {ours}, the list has {listed}")
    }
}

#[derive(Drop)]
pub struct Answers {
    pub found: Vec<Found>,
    pub work: Vec<WorkPart>,
}

impl Answers {
    pub fn new(alloc: Global, found: &[Found], work: &[WorkPart]) -> Result<Self, AllocError>
        ensures { IfOk result (λ a. (a.found.items ≡ found.now) × (a.work.items ≡ work.now)) }
    {
        Ok(Answers {
            found: found.to_vec(alloc)?,
            work: work.to_vec(alloc)?,
        })
    }

    // Of a call with one answer.
    pub fn only<T: Number>(alloc: Global, ours: T) -> Result<Self, AllocError>
        ensures { IfOk result (λ a. map (λ f. f.ours) a.found.items ≡ T.number ours ∷ []) }
    {
        let found = Found {
            label: Label::Only,
            ours: ours.number(),
        };
        Answers::new(alloc, &[found], &[])
    }

    // As many as the list has.
    pub fn beside(&self, alloc: Global, listed: &[u64]) -> Result<Vec<Answer>, CaseError>
        ensures misfit { IsErrOf result CaseError.NotUnderstood ↔ (length listed.now ≢ vec_len self.now.found) }
        ensures ok { IfOk result (λ answers. answers.items ≡ beside self.now.found.items self.now.work.items listed.now) }
    {
        if listed.len() != self.found.len() {
            return Err(CaseError::NotUnderstood);
        }
        // Where there are work parts, the number comes first.
        let number = listed.first().copied().unwrap_or(0);
        Ok(self.lay(alloc, listed, number)?)
    }

    fn lay(&self, alloc: Global, listed: &[u64], number: u64) -> Result<Vec<Answer>, AllocError>
        ensures { IfOk result (λ answers. answers.items ≡ lay self.now.found.items self.now.work.items listed.now number) }
    {
        let found = self.found.iter().zip(listed);
        let work = self.work.iter();
        found
            .map(|(found, listed)| found.beside(*listed))
            .chain(work.map(|part| part.beside(number)))
            .collect(alloc)
    }
}
