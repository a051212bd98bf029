// Check sums of a word, and the test of its symbols.
ghost use Rattle.std.specs.Prelude.{◌≡◌, ℕ, ◌+◌, ◌<◌, ◌≤◌, length};
ghost use Rattle.lists.specs.Entry.{nth};
ghost use Rattle.elimination.specs.Held.{edges_in, held};
ghost use Rattle.words.specs.Word.{check_sum, all_satisfied};
ghost use Rattle.lent.specs.LentCode.{graph_of};
ghost use Rattle.words.specs.BadWord.{bad_word};
ghost use Rattle.words.specs.Degree.{degree_in};

use field::gf::mul;
use lent::Sound;

// Whether a symbol is above 31.
pub fn bad_word(word: &[u8]) -> bool
    ensures { result ≡ bad_word word.now }
{
    for symbol in word {
        if *symbol > 31 {
            return true;
        }
    }
    false
}

// The sum over a check's edges.
fn check_sum(var: &[u16], coef: &[u8], word: &[u8]) -> u8
    requires { (length coef.now ≡ length var.now) × ((e : ℕ) → e < length var.now → nth var.now e < length word.now) }
    ensures { result ≡ check_sum (edges_in var.now coef.now 0 (length var.now)) word.now }
{
    let mut sum = 0u8;
    for (e, v) in var.iter().enumerate() {
        sum ^= mul(coef[e], word[*v as usize]);
    }
    sum
}

// Whether the word satisfies all m checks.
pub fn all_satisfied(m: usize, var: &[u16], coef: &[u8], row: &[u16], word: &[u8]) -> bool
    requires m_in_bounds { (m < length row.now) × (length var.now ≡ 512) × (length coef.now ≡ 512) }
    requires by_index { ((c : ℕ) → c < m → nth row.now c ≤ nth row.now (c + 1)) × (nth row.now m ≤ 512) }
    requires by_index_2 { (e : ℕ) → e < nth row.now m → nth var.now e < length word.now }
    ensures { result ≡ all_satisfied (held (length word.now) m var.now coef.now row.now) word.now }
{
    // No plainer: check c's edges begin and end by row[c] and row[c + 1].
    for c in 0..m {
        let from = row[c] as usize;
        let to = row[c + 1] as usize;
        if check_sum(&var[from..to], &coef[from..to], word) != 0 {
            return false;
        }
    }
    true
}

// The same of a code.
pub fn satisfies(code: &Sound, word: &[u8]) -> bool
    requires { length word.now ≡ code.now.code.n }
    ensures { result ≡ all_satisfied (graph_of code.now) word.now }
{
    let lent = code.lent;
    all_satisfied(lent.numbers.m, lent.var, lent.coef, lent.row, word)
}

// How many edges a variable has.
pub fn degree(code: &Sound, v: usize) -> usize
    requires { v < code.now.code.n }
    ensures { result ≡ degree_in (graph_of code.now) v }
{
    let lent = code.lent;
    let start = lent.start;
    start[v + 1] as usize - start[v] as usize
}
