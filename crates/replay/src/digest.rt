// The digest of a part: from 0 on, d becomes (17 d + (entry mod 65521) + 1) mod 65521.
ghost use Rattle.std.specs.Prelude.{◌≡◌, map};
ghost use Rattle.replay.specs.Digest.{digested, digest_of};
ghost use Rattle.replay.specs.Work.{as_lent, as_cleared};

use crate::number::Number;

pub fn digest<T: Number>(part: &[T]) -> u16
    ensures { result ≡ digest_of (map T.number part.now) }
{
    part.iter().map(|x| x.number()).fold(0, digested)
}

// A digest with one more entry.
fn digested(d: u16, entry: u64) -> u16
    ensures { result ≡ digested d entry }
{
    ((17 * u64::from(d) + entry % 65521 + 1) % 65521) as u16
}

// The kinds of work parts: those of 65,536 and of 256 entries, and the 50,176 floats of `vectors`; `words` and `bytes` of a rate's code, of 512 and 131,072 entries, and of a
// frame, of 2,818 and 147,968; and the 58,368 floats of a frame. Every entry of one that is lent is 1.
#[derive(Clone, Copy)]
pub enum WorkKind {
    Large,
    Small,
    Vectors,
    CodeWords,
    CodeBytes,
    FrameWords,
    FrameBytes,
    FrameFloats,
}

// What the digest of such a part should be stands here as a number, so a digest that goes wrong differs from it.
impl WorkKind {
    // Of a part as it is lent. No plainer: this and `cleared` are tables of numbers, and one function for both would take a flag that says which.
    pub fn lent(self) -> u64
        ensures { result ≡ digest_of (as_lent self) }
    {
        match self {
            WorkKind::Large => 29565,
            WorkKind::Small => 41082,
            WorkKind::Vectors => 47903,
            WorkKind::CodeWords => 15486,
            WorkKind::CodeBytes => 44205,
            WorkKind::FrameWords => 52,
            WorkKind::FrameBytes => 47773,
            WorkKind::FrameFloats => 17030,
        }
    }

    // Of one that a call has cleared.
    pub fn cleared(self) -> u64
        ensures { result ≡ digest_of (as_cleared self) }
    {
        match self {
            WorkKind::Large => 47543,
            WorkKind::Small => 20541,
            WorkKind::Vectors => 18731,
            WorkKind::CodeWords => 7743,
            WorkKind::CodeBytes => 54863,
            WorkKind::FrameWords => 26,
            WorkKind::FrameBytes => 56647,
            WorkKind::FrameFloats => 35983,
        }
    }
}
