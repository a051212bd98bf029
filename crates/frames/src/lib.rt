// Frames: a notice of 256 bits as the tones of a rate's code in a layout, and back. The public calls that encode stand here, and those that decode in `decode`;
// each builds its code in the work parts `words` and `bytes`.
#![tactic(auto)]

ghost use Rattle.std.specs.Prelude.{◌≡◌, length};
ghost use Rattle.calls.specs.Refusal.{first_of, answered};
ghost use Rattle.calls.specs.Parts.{worked, written};
ghost use Rattle.layouts.specs.Packing.{bits_to_syms};
ghost use Rattle.rates.specs.Rate.{rate_of};
ghost use Rattle.frames.specs.BitsToSyms.{bits_to_syms_refusals};
ghost use Rattle.frames.specs.EncodeBits.{default_rate, default_layout, encode_bits_refusals};
ghost use Rattle.frames.specs.FrameLayout.{frame_layout};
ghost use Rattle.frames.specs.Promise.{Promised};
ghost use Rattle.frames.specs.Tones.{tones_of};

use calls::Refusal;
use layouts::packing;
use rates::Rate;

pub mod decode;
mod encoding;
mod found;
pub mod layout;
mod work;

use layout::FrameLayout;

// What a call takes that names no rate or no layout: 1/4, and the bits spread over the echelon set.
const DEFAULT_RATE: usize = 0;

const DEFAULT_LAYOUT: usize = 2;

// The tones of 256 bits, of each of which the lowest counts.
pub fn encode_bits_at(
    rate: usize,
    layout: usize,
    bits: &[u8],
    tones: &mut [u8],
    words: &mut [u16],
    bytes: &mut [u8],
) -> Result<(), Refusal>
    ensures answer { result ≡ answered (first_of (encode_bits_refusals rate layout (length bits.now) (length tones.old) (length words.old) (length bytes.old))) tt }
    ensures tones_after { tones.new ≡ written result tones.old (tones_of (rate_of rate) (frame_layout layout) bits.now) }
    ensures words_after { words.new ≡ worked result 0 words.old }
    ensures bytes_after { bytes.new ≡ worked result 0 bytes.old }
{
    let rate = Rate::of(rate)?;
    let layout = FrameLayout::of(layout)?;
    if (bits.len() != 256) | ((tones.len() != rate.n) | work::misfit(words.len(), bytes.len())) {
        return Err(Refusal::Length);
    }
    encoding::encode(rate, layout, bits, tones, words, bytes);
    words.fill(0);
    bytes.fill(0);
    Ok(())
}

// The same at rate 1/4.
pub fn encode_bits_with(
    layout: usize,
    bits: &[u8],
    tones: &mut [u8],
    words: &mut [u16],
    bytes: &mut [u8],
) -> Result<(), Refusal>
    ensures answer { result ≡ answered (first_of (encode_bits_refusals default_rate layout (length bits.now) (length tones.old) (length words.old) (length bytes.old))) tt }
    ensures tones_after { tones.new ≡ written result tones.old (tones_of (rate_of default_rate) (frame_layout layout) bits.now) }
    ensures words_after { words.new ≡ worked result 0 words.old }
    ensures bytes_after { bytes.new ≡ worked result 0 bytes.old }
{
    encode_bits_at(DEFAULT_RATE, layout, bits, tones, words, bytes)
}

// The same in the default layout.
pub fn encode_bits(
    bits: &[u8],
    tones: &mut [u8],
    words: &mut [u16],
    bytes: &mut [u8],
) -> Result<(), Refusal>
    ensures answer { result ≡ answered (first_of (encode_bits_refusals default_rate default_layout (length bits.now) (length tones.old) (length words.old) (length bytes.old))) tt }
    ensures tones_after { tones.new ≡ written result tones.old (tones_of (rate_of default_rate) (frame_layout default_layout) bits.now) }
    ensures words_after { words.new ≡ worked result 0 words.old }
    ensures bytes_after { bytes.new ≡ worked result 0 bytes.old }
{
    encode_bits_with(DEFAULT_LAYOUT, bits, tones, words, bytes)
}

// Bits to symbols, five to a symbol and most significant first; bits that are missing in the last one are 0.
pub fn bits_to_syms(bits: &[u8], syms: &mut [u8]) -> Result<(), Refusal>
    ensures answer { result ≡ answered (first_of (bits_to_syms_refusals (length bits.now) (length syms.old))) tt }
    ensures syms_after { syms.new ≡ written result syms.old (bits_to_syms bits.now) }
{
    if syms.len() != bits.len().div_ceil(5) {
        return Err(Refusal::Length);
    }
    packing::bits_to_syms(bits, syms);
    Ok(())
}

// What is promised of frames: a promise alone, and no code.
pub fn promise()
    ensures { Promised }
{}
