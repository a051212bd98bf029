// A rate's code in two slices, its parts one after another: for calls that build their code in work parts.
ghost use Rattle.std.specs.Prelude.{◌≡◌, length};
ghost use Rattle.graph.specs.Buildable.{PartsFit};
ghost use Rattle.graph.specs.Parts.{Parts};
ghost use Rattle.lent.specs.Held.{Held};
ghost use Rattle.rates.specs.Rate.{IsRate};
ghost use Rattle.rates.specs.RateCode.{rate_code};
ghost use Rattle.rates.specs.Slices.{code_words, code_bytes};

use crate::build::build;
use crate::{InfoSet, Rate};
use graph::Code;
use lent::Lent;

// The seven parts of u16, 512 + 257 + 257 + 512 + 256 + 256 + 256, and the two of u8, 512 + 16,384.
pub const CODE_WORDS: usize = 2306;

pub const CODE_BYTES: usize = 16896;

// Builds the code into `words` and `bytes`; `more_words` and `more_bytes` are work parts, and are not cleared.
pub fn build_in(
    rate: Rate,
    set: InfoSet,
    words: &mut [u16],
    bytes: &mut [u8],
    more_words: &mut [u16],
    more_bytes: &mut [u8],
) -> Code
    requires is_rate { IsRate rate }
    requires lengths { (length words.old ≡ 2306) × (length bytes.old ≡ 16896) × (length more_words.old ≡ 512) × (length more_bytes.old ≡ 131072) }
    ensures value { result ≡ (rate_code rate set).code }
    ensures words_after { words.new ≡ code_words (rate_code rate set).parts }
    ensures bytes_after { bytes.new ≡ code_bytes (rate_code rate set).parts }
{
    let (var, rest) = words.split_at_mut(512);
    let (row, rest) = rest.split_at_mut(257);
    let (start, rest) = rest.split_at_mut(257);
    let (col, rest) = rest.split_at_mut(512);
    let (order, rest) = rest.split_at_mut(256);
    let (parity, info) = rest.split_at_mut(256);
    let (coef, a) = bytes.split_at_mut(512);
    let (load, deg) = more_words.split_at_mut(256);
    let (chk, own) = more_bytes.split_at_mut(65536);
    build(
        rate, set, var, coef, row, start, col, order, parity, info, a, chk, load, own, deg,
    )
}

// What stands there, as a lent code. No test is made: `rate_accepted` (proofs/RateCode.antt) says that it is sound.
pub fn view<'a>(code: Code, words: &'a [u16], bytes: &'a [u8]) -> Lent<'a>
    requires lengths { (length words.now ≡ 2306) × (length bytes.now ≡ 16896) }
    ensures { (p : Parts) → PartsFit p → words.now ≡ code_words p → bytes.now ≡ code_bytes p → ◌≡◌ {A = Held} result (record { code = code; parts = p }) }
{
    Lent {
        numbers: code,
        var: &words[0..512],
        coef: &bytes[0..512],
        row: &words[512..769],
        start: &words[769..1026],
        col: &words[1026..1538],
        order: &words[1538..1794],
        parity: &words[1794..2050],
        info: &words[2050..2306],
        a: &bytes[512..16896],
    }
}
