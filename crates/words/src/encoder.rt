// A word from its information symbols: the symbols at their positions, then the parity symbols, each a sum over the table's row.
ghost use Rattle.std.specs.Prelude.{◌≡◌, ℕ, ◌+◌, ◌*◌, ◌<◌, ◌≤◌, length};
ghost use Rattle.lists.specs.Entry.{nth};
ghost use Rattle.lists.specs.Placed.{placed};
ghost use Rattle.field.specs.Field.{product};
ghost use Rattle.field.specs.FieldSum.{field_sum};
ghost use Rattle.words.specs.Encoding.{symbol};
ghost use Rattle.words.specs.Encode.{encoded};
ghost use Rattle.words.specs.EncoderParts.{EncoderParts, encoded_by};
ghost use Rattle.words.specs.K.{k_of};

use crate::positions;
use field::gf::mul;
use lent::Sound;

// Symbol t mod 32; a missing one is 0, as the call promises.
fn symbol(syms: &[u8], t: usize) -> u8
    ensures { result ≡ symbol syms.now t }
{
    if t < syms.len() {
        return syms[t] % 32;
    }
    0
}

// The symbols at the given positions.
fn place_symbols(info: &[u16], syms: &[u8], word: &mut [u8])
    requires { (t : ℕ) → t < length info.now → nth info.now t < length word.old }
    ensures { word.new ≡ placed (length info.now) (nth info.now) (symbol syms.now) word.old }
{
    for (t, place) in info.iter().enumerate() {
        word[*place as usize] = symbol(syms, t);
    }
}

// The sum of the symbols, each times the factor in the table from place `at` on. No plainer: `at` begins a row of a lent table, of which a code uses as many as it has.
fn parity_symbol(at: usize, a: &[u8], syms: &[u8]) -> u8
    requires { (at + length syms.now ≤ length a.now) × (length a.now ≡ 16384) }
    ensures { result ≡ field_sum (length syms.now) (λ t. product (nth a.now (at + t)) (nth syms.now t)) }
{
    let mut sum = 0u8;
    for (t, s) in syms.iter().enumerate() {
        sum ^= mul(a[at + t], *s);
    }
    sum
}

// The parity symbols at the given positions, from rows of k factors. No plainer without k: it is the table's row, also where fewer symbols are given.
fn place_parity(k: usize, parity: &[u16], a: &[u8], syms: &[u8], word: &mut [u8])
    requires inside { (i : ℕ) → i < length parity.now → nth parity.now i < length word.old }
    requires room { (length parity.now ≤ 256) × (k ≤ 256) × (length a.now ≡ 16384) × (length parity.now * k ≤ 16384) × (length syms.now ≤ k) }
    ensures { word.new ≡ placed (length parity.now) (nth parity.now)
        (λ i. field_sum (length syms.now) (λ t. product (nth a.now (i * k + t)) (nth syms.now t))) word.old }
{
    let mut at = 0;
    for place in parity {
        word[*place as usize] = parity_symbol(at, a, syms);
        at += k;
    }
}

// The word of the given information symbols, of a code with r parity and k information positions. No plainer by a `Sound`: any encoder's parts
// will do, and a `Sound` would ask more.
pub fn encode(
    r: usize,
    k: usize,
    parity: &[u16],
    info: &[u16],
    a: &[u8],
    syms: &[u8],
    word: &mut [u8],
)
    requires { (EncoderParts (length word.old) r k parity.now info.now a.now) × (length syms.now ≤ k) }
    ensures { word.new ≡ encoded_by (length word.old) r k parity.now info.now a.now syms.now }
{
    word.fill(0);
    place_symbols(&info[..k], syms, word);
    place_parity(k, &parity[..r], a, syms, word);
}

// The same by a code's own parts.
pub fn encode_by(code: &Sound, syms: &[u8], word: &mut [u8])
    requires { (length word.old ≡ code.now.code.n) × (length syms.now ≤ k_of code.now) }
    ensures { word.new ≡ encoded code.now syms.now }
{
    let lent = code.lent;
    let k = positions::count(code);
    encode(
        lent.numbers.rank,
        k,
        lent.parity,
        lent.info,
        lent.a,
        syms,
        word,
    );
}
