// The work parts of the frame calls: a code stands in front of each, and what builds it behind.
ghost use Rattle.std.specs.Prelude.{◌≡◌, [], ◌∷◌};
ghost use Rattle.calls.specs.Refusal.{misfit};
ghost use Rattle.frames.specs.Work.{words_length, bytes_length};

use rates::slices::{CODE_BYTES, CODE_WORDS};

// Behind the code what growth counts: 2 * 256.
pub const WORDS: usize = CODE_WORDS + 512;

// And growth's tables: 2 * 65,536.
pub const BYTES: usize = CODE_BYTES + 131072;

// Whether they have other lengths.
pub fn misfit(words: usize, bytes: usize) -> bool
    ensures { result ≡ misfit ((words, words_length) ∷ (bytes, bytes_length) ∷ []) }
{
    (words != WORDS) | (bytes != BYTES)
}
