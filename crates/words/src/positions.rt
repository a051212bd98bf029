// What stands at the information positions, and the positions themselves, to the front of a part.
ghost use Rattle.std.specs.Prelude.{◌≡◌, ℕ, ◌<◌, ◌≤◌, length};
ghost use Rattle.lists.specs.Entry.{nth};
ghost use Rattle.lists.specs.Laid.{laid};
ghost use Rattle.lists.specs.Values.{values};
ghost use Rattle.words.specs.InfoOf.{own_symbols, own_part};
ghost use Rattle.words.specs.InfoPositions.{positions_part};
ghost use Rattle.words.specs.K.{k_of};

use calls::copy::copy;
use lent::Sound;

// How many there are.
pub fn count(code: &Sound) -> usize
    ensures { result ≡ k_of code.now }
{
    let lent = code.lent;
    lent.numbers.n - lent.numbers.rank
}

// The word's symbols at the given positions.
fn gather(info: &[u16], word: &[u8], syms: &mut [u8])
    requires { (length info.now ≤ length syms.old) × ((t : ℕ) → t < length info.now → nth info.now t < length word.now) }
    ensures { syms.new ≡ laid (values (length info.now) (λ t. nth word.now (nth info.now t))) syms.old }
{
    for (t, v) in info.iter().enumerate() {
        syms[t] = word[*v as usize];
    }
}

// A word's own symbols there, to the front of a part of n. Answers how many they are.
pub fn own_symbols(code: &Sound, word: &[u8], syms: &mut [u8]) -> usize
    requires { (length word.now ≡ code.now.code.n) × (length syms.old ≡ code.now.code.n) }
    ensures value { result ≡ length (own_symbols code.now word.now) }
    ensures syms_after { syms.new ≡ own_part code.now word.now }
{
    let lent = code.lent;
    let k = count(code);
    syms.fill(0);
    gather(&lent.info[..k], word, syms);
    k
}

// All of them, to the front of a part of n. Answers how many they are.
pub fn list(code: &Sound, positions: &mut [u16]) -> usize
    requires { length positions.old ≡ code.now.code.n }
    ensures value { result ≡ k_of code.now }
    ensures positions_after { positions.new ≡ positions_part code.now }
{
    let lent = code.lent;
    let k = count(code);
    let info = &lent.info[..k];
    positions.fill(0);
    copy(info, &mut positions[..k]);
    k
}
