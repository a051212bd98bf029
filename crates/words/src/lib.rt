// Words of a lent code. The public calls on words stand here; each begins with the test of the lent code, which works in `h` and `pivots`. What is promised of words is the
// contract of `promise`.
#![tactic(auto)]

ghost use Rattle.std.specs.Prelude.{◌≡◌, false, length};
ghost use Rattle.calls.specs.Refusal.{first_of, answered};
ghost use Rattle.calls.specs.Parts.{worked, written};
ghost use Rattle.lent.specs.LentCode.{graph_of, lent_refusals};
ghost use Rattle.words.specs.Word.{all_satisfied};
ghost use Rattle.words.specs.Encode.{encode_refusals, encoded};
ghost use Rattle.words.specs.InfoOf.{info_of_refusals, own_symbols, own_part};
ghost use Rattle.words.specs.ChecksOk.{checks_ok_refusals};
ghost use Rattle.words.specs.Degree.{degree_in, degree_refusals};
ghost use Rattle.words.specs.K.{k_of};
ghost use Rattle.words.specs.N.{n_of};
ghost use Rattle.words.specs.InfoPositions.{info_positions_refusals, positions_part};
ghost use Rattle.words.specs.Promise.{Promised};

use calls::Refusal;
use lent::Lent;

pub mod checks;
pub mod encoder;
pub mod positions;

// The word of the given information symbols, each mod 32; missing ones are 0.
pub fn encode(
    code: &Lent,
    syms: &[u8],
    word: &mut [u8],
    h: &mut [u8],
    pivots: &mut [u16],
) -> Result<(), Refusal>
    ensures answer { result ≡ answered (first_of (encode_refusals code.now syms.now (length word.old) (length h.old) (length pivots.old))) tt }
    ensures word_after { word.new ≡ written result word.old (encoded code.now syms.now) }
    ensures h_after { h.new ≡ worked result 0 h.old }
    ensures pivots_after { pivots.new ≡ worked result 0 pivots.old }
{
    let sound = code.accepted(h, pivots, word.len() != code.numbers.n)?;
    if syms.len() > positions::count(&sound) {
        return Err(Refusal::Value);
    }
    encoder::encode_by(&sound, syms, word);
    Ok(())
}

// The word's information symbols, to the front of `syms`. Answers how many they are.
pub fn info_of(
    code: &Lent,
    word: &[u8],
    syms: &mut [u8],
    h: &mut [u8],
    pivots: &mut [u16],
) -> Result<usize, Refusal>
    ensures answer { result ≡ answered (first_of (info_of_refusals code.now word.now (length syms.old) (length h.old) (length pivots.old))) (length (own_symbols code.now word.now)) }
    ensures syms_after { syms.new ≡ written result syms.old (own_part code.now word.now) }
    ensures h_after { h.new ≡ worked result 0 h.old }
    ensures pivots_after { pivots.new ≡ worked result 0 pivots.old }
{
    let misfit = (word.len() != code.numbers.n) | (syms.len() != code.numbers.n);
    let sound = code.accepted(h, pivots, misfit)?;
    if checks::bad_word(word) {
        return Err(Refusal::Value);
    }
    Ok(positions::own_symbols(&sound, word, syms))
}

// Whether the word satisfies all checks.
pub fn checks_ok(
    code: &Lent,
    word: &[u8],
    h: &mut [u8],
    pivots: &mut [u16],
) -> Result<bool, Refusal>
    ensures answer { result ≡ answered (first_of (checks_ok_refusals code.now word.now (length h.old) (length pivots.old))) (all_satisfied (graph_of code.now) word.now) }
    ensures h_after { h.new ≡ worked result 0 h.old }
    ensures pivots_after { pivots.new ≡ worked result 0 pivots.old }
{
    let sound = code.accepted(h, pivots, word.len() != code.numbers.n)?;
    if checks::bad_word(word) {
        return Err(Refusal::Value);
    }
    Ok(checks::satisfies(&sound, word))
}

// How many edges variable v has.
pub fn degree(code: &Lent, v: usize, h: &mut [u8], pivots: &mut [u16]) -> Result<usize, Refusal>
    ensures answer { result ≡ answered (first_of (degree_refusals code.now v (length h.old) (length pivots.old))) (degree_in (graph_of code.now) v) }
    ensures h_after { h.new ≡ worked result 0 h.old }
    ensures pivots_after { pivots.new ≡ worked result 0 pivots.old }
{
    let sound = code.accepted(h, pivots, false)?;
    if v >= code.numbers.n {
        return Err(Refusal::Value);
    }
    Ok(checks::degree(&sound, v))
}

// How many information positions the code has.
pub fn k(code: &Lent, h: &mut [u8], pivots: &mut [u16]) -> Result<usize, Refusal>
    ensures answer { result ≡ answered (first_of (lent_refusals code.now (length h.old) (length pivots.old) false)) (k_of code.now) }
    ensures h_after { h.new ≡ worked result 0 h.old }
    ensures pivots_after { pivots.new ≡ worked result 0 pivots.old }
{
    let sound = code.accepted(h, pivots, false)?;
    Ok(positions::count(&sound))
}

// How many symbols the code's words have.
pub fn n(code: &Lent, h: &mut [u8], pivots: &mut [u16]) -> Result<usize, Refusal>
    ensures answer { result ≡ answered (first_of (lent_refusals code.now (length h.old) (length pivots.old) false)) (n_of code.now) }
    ensures h_after { h.new ≡ worked result 0 h.old }
    ensures pivots_after { pivots.new ≡ worked result 0 pivots.old }
{
    code.accepted(h, pivots, false)?;
    Ok(code.numbers.n)
}

// The information positions, to the front of `positions`. Answers how many they are.
pub fn info_positions(
    code: &Lent,
    positions: &mut [u16],
    h: &mut [u8],
    pivots: &mut [u16],
) -> Result<usize, Refusal>
    ensures answer { result ≡ answered (first_of (info_positions_refusals code.now (length positions.old) (length h.old) (length pivots.old))) (k_of code.now) }
    ensures positions_after { positions.new ≡ written result positions.old (positions_part code.now) }
    ensures h_after { h.new ≡ worked result 0 h.old }
    ensures pivots_after { pivots.new ≡ worked result 0 pivots.old }
{
    let sound = code.accepted(h, pivots, positions.len() != code.numbers.n)?;
    Ok(positions::list(&sound, positions))
}

// What is promised of words: a promise alone, and no code.
pub fn promise()
    ensures { Promised }
{}
