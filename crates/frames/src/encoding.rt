// The tones of a frame's bits.
ghost use Rattle.std.specs.Prelude.{◌≡◌, ◌≤◌, length};
ghost use Rattle.words.specs.K.{k_of};
ghost use Rattle.rates.specs.Rate.{IsRate};
ghost use Rattle.frames.specs.Tones.{tones_in, tones_of};
ghost use Rattle.frames.specs.Work.{words_length, bytes_length};

use crate::layout::{FrameLayout, tables};
use layouts::BitMap;
use lent::Sound;
use rates::Rate;
use rates::slices::{CODE_BYTES, CODE_WORDS, build_in, view};
use words::encoder::encode_by;

// By a code that has a position for each of a frame's symbols.
pub fn tones(code: &Sound, map: BitMap, bits: &[u8], tones: &mut [u8])
    requires enough { 52 ≤ k_of code.now }
    requires lengths { (length bits.now ≡ 256) × (length tones.old ≡ code.now.code.n) }
    ensures { tones.new ≡ tones_in code.now map bits.now }
{
    let syms = tables(code, map).symbols_of(bits);
    encode_by(code, &syms, tones);
}

// By the code of a rate, which is built in the work parts and left there.
pub fn encode(
    rate: Rate,
    layout: FrameLayout,
    bits: &[u8],
    out: &mut [u8],
    words: &mut [u16],
    bytes: &mut [u8],
)
    requires is_rate { IsRate rate }
    requires lengths { (length bits.now ≡ 256) × (length out.old ≡ rate.n) }
    requires work { (length words.old ≡ words_length) × (length bytes.old ≡ bytes_length) }
    ensures { out.new ≡ tones_of rate layout bits.now }
{
    let (words, more_words) = words.split_at_mut(CODE_WORDS);
    let (bytes, more_bytes) = bytes.split_at_mut(CODE_BYTES);
    let code = build_in(rate, layout.set, words, bytes, more_words, more_bytes);
    let lent = view(code, words, bytes);
    tones(&lent.known_sound(), layout.map, bits, out);
}
