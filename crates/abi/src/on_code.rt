// The exported calls on a lent code. The code's numbers come first, then its parts; `h` and `pivots` are work parts. The C interface has a code's numbers and parts one
// by one, so each call takes them flat and makes a `Lent` of them.
ghost use Rattle.std.specs.Prelude.{◌≡◌, false, length};
ghost use Rattle.std.specs.Int.{from_bool};
ghost use Rattle.calls.specs.Refusal.{first_of, answered, answer_number};
ghost use Rattle.calls.specs.Parts.{worked, written};
ghost use Rattle.lent.specs.LentCode.{graph_of, lent_refusals};
ghost use Rattle.words.specs.Word.{all_satisfied};
ghost use Rattle.words.specs.Encode.{encode_refusals, encoded};
ghost use Rattle.words.specs.InfoOf.{info_of_refusals, own_symbols, own_part};
ghost use Rattle.words.specs.ChecksOk.{checks_ok_refusals};
ghost use Rattle.words.specs.Degree.{degree_in, degree_refusals};
ghost use Rattle.words.specs.K.{k_of};
ghost use Rattle.words.specs.N.{n_of};
ghost use Rattle.words.specs.InfoPositions.{info_positions_refusals, positions_part};
ghost use Rattle.abi.specs.Held.{held_of};

use crate::{found, lent_code, number_of};

// The word of the given information symbols.
#[unsafe(no_mangle)]
pub extern "C" fn hazgunek_encode(
    n: usize,
    m: usize,
    edges: usize,
    rank: usize,
    var: &[u16],
    coef: &[u8],
    row: &[u16],
    start: &[u16],
    col: &[u16],
    order: &[u16],
    parity: &[u16],
    info: &[u16],
    a: &[u8],
    syms: &[u8],
    word: &mut [u8],
    h: &mut [u8],
    pivots: &mut [u16],
) -> u8
    ensures { let l = held_of n m edges rank var.now coef.now row.now start.now col.now order.now parity.now info.now a.now in
        let answer = answered (first_of (encode_refusals l syms.now (length word.old) (length h.old) (length pivots.old))) (tt {0})
        in (result ≡ answer_number answer)
        × (word.new ≡ written answer word.old (encoded l syms.now))
        × (h.new ≡ worked answer 0 h.old)
        × (pivots.new ≡ worked answer 0 pivots.old) }
{
    let code = lent_code(
        n, m, edges, rank, var, coef, row, start, col, order, parity, info, a,
    );
    number_of(words::encode(&code, syms, word, h, pivots))
}

// The word's information symbols, and how many they are.
#[unsafe(no_mangle)]
pub extern "C" fn hazgunek_info_of(
    n: usize,
    m: usize,
    edges: usize,
    rank: usize,
    var: &[u16],
    coef: &[u8],
    row: &[u16],
    start: &[u16],
    col: &[u16],
    order: &[u16],
    parity: &[u16],
    info: &[u16],
    a: &[u8],
    word: &[u8],
    count: &mut usize,
    syms: &mut [u8],
    h: &mut [u8],
    pivots: &mut [u16],
) -> u8
    ensures { let l = held_of n m edges rank var.now coef.now row.now start.now col.now order.now parity.now info.now a.now in
        let answer = answered (first_of (info_of_refusals l word.now (length syms.old) (length h.old) (length pivots.old))) (length (own_symbols l word.now))
        in (result ≡ answer_number answer)
        × (count.new ≡ written answer count.old (length (own_symbols l word.now)))
        × (syms.new ≡ written answer syms.old (own_part l word.now))
        × (h.new ≡ worked answer 0 h.old)
        × (pivots.new ≡ worked answer 0 pivots.old) }
{
    let code = lent_code(
        n, m, edges, rank, var, coef, row, start, col, order, parity, info, a,
    );
    found(words::info_of(&code, word, syms, h, pivots), count)
}

// Whether the word satisfies all checks: 1 or 0.
#[unsafe(no_mangle)]
pub extern "C" fn hazgunek_checks_ok(
    n: usize,
    m: usize,
    edges: usize,
    rank: usize,
    var: &[u16],
    coef: &[u8],
    row: &[u16],
    start: &[u16],
    col: &[u16],
    order: &[u16],
    parity: &[u16],
    info: &[u16],
    a: &[u8],
    word: &[u8],
    ok: &mut u8,
    h: &mut [u8],
    pivots: &mut [u16],
) -> u8
    ensures { let l = held_of n m edges rank var.now coef.now row.now start.now col.now order.now parity.now info.now a.now in
        let answer = answered (first_of (checks_ok_refusals l word.now (length h.old) (length pivots.old))) (all_satisfied (graph_of l) word.now)
        in (result ≡ answer_number answer)
        × (ok.new ≡ written answer ok.old (from_bool (all_satisfied (graph_of l) word.now)))
        × (h.new ≡ worked answer 0 h.old)
        × (pivots.new ≡ worked answer 0 pivots.old) }
{
    let code = lent_code(
        n, m, edges, rank, var, coef, row, start, col, order, parity, info, a,
    );
    match words::checks_ok(&code, word, h, pivots) {
        Ok(found) => {
            *ok = u8::from(found);
            0
        }
        Err(refusal) => refusal.number(),
    }
}

// How many edges variable v has.
#[unsafe(no_mangle)]
pub extern "C" fn hazgunek_degree(
    n: usize,
    m: usize,
    edges: usize,
    rank: usize,
    var: &[u16],
    coef: &[u8],
    row: &[u16],
    start: &[u16],
    col: &[u16],
    order: &[u16],
    parity: &[u16],
    info: &[u16],
    a: &[u8],
    v: usize,
    degree: &mut usize,
    h: &mut [u8],
    pivots: &mut [u16],
) -> u8
    ensures { let l = held_of n m edges rank var.now coef.now row.now start.now col.now order.now parity.now info.now a.now in
        let answer = answered (first_of (degree_refusals l v (length h.old) (length pivots.old))) (degree_in (graph_of l) v)
        in (result ≡ answer_number answer)
        × (degree.new ≡ written answer degree.old (degree_in (graph_of l) v))
        × (h.new ≡ worked answer 0 h.old)
        × (pivots.new ≡ worked answer 0 pivots.old) }
{
    let code = lent_code(
        n, m, edges, rank, var, coef, row, start, col, order, parity, info, a,
    );
    found(words::degree(&code, v, h, pivots), degree)
}

// How many information positions the code has.
#[unsafe(no_mangle)]
pub extern "C" fn hazgunek_k(
    n: usize,
    m: usize,
    edges: usize,
    rank: usize,
    var: &[u16],
    coef: &[u8],
    row: &[u16],
    start: &[u16],
    col: &[u16],
    order: &[u16],
    parity: &[u16],
    info: &[u16],
    a: &[u8],
    k: &mut usize,
    h: &mut [u8],
    pivots: &mut [u16],
) -> u8
    ensures { let l = held_of n m edges rank var.now coef.now row.now start.now col.now order.now parity.now info.now a.now in
        let answer = answered (first_of (lent_refusals l (length h.old) (length pivots.old) false)) (k_of l)
        in (result ≡ answer_number answer)
        × (k.new ≡ written answer k.old (k_of l))
        × (h.new ≡ worked answer 0 h.old)
        × (pivots.new ≡ worked answer 0 pivots.old) }
{
    let code = lent_code(
        n, m, edges, rank, var, coef, row, start, col, order, parity, info, a,
    );
    found(words::k(&code, h, pivots), k)
}

// How many symbols the code's words have.
#[unsafe(no_mangle)]
pub extern "C" fn hazgunek_n(
    n: usize,
    m: usize,
    edges: usize,
    rank: usize,
    var: &[u16],
    coef: &[u8],
    row: &[u16],
    start: &[u16],
    col: &[u16],
    order: &[u16],
    parity: &[u16],
    info: &[u16],
    a: &[u8],
    symbols: &mut usize,
    h: &mut [u8],
    pivots: &mut [u16],
) -> u8
    ensures { let l = held_of n m edges rank var.now coef.now row.now start.now col.now order.now parity.now info.now a.now in
        let answer = answered (first_of (lent_refusals l (length h.old) (length pivots.old) false)) (n_of l)
        in (result ≡ answer_number answer)
        × (symbols.new ≡ written answer symbols.old (n_of l))
        × (h.new ≡ worked answer 0 h.old)
        × (pivots.new ≡ worked answer 0 pivots.old) }
{
    let code = lent_code(
        n, m, edges, rank, var, coef, row, start, col, order, parity, info, a,
    );
    found(words::n(&code, h, pivots), symbols)
}

// The information positions, and how many they are.
#[unsafe(no_mangle)]
pub extern "C" fn hazgunek_info_positions(
    n: usize,
    m: usize,
    edges: usize,
    rank: usize,
    var: &[u16],
    coef: &[u8],
    row: &[u16],
    start: &[u16],
    col: &[u16],
    order: &[u16],
    parity: &[u16],
    info: &[u16],
    a: &[u8],
    count: &mut usize,
    positions: &mut [u16],
    h: &mut [u8],
    pivots: &mut [u16],
) -> u8
    ensures { let l = held_of n m edges rank var.now coef.now row.now start.now col.now order.now parity.now info.now a.now in
        let answer = answered (first_of (info_positions_refusals l (length positions.old) (length h.old) (length pivots.old))) (k_of l)
        in (result ≡ answer_number answer)
        × (count.new ≡ written answer count.old (k_of l))
        × (positions.new ≡ written answer positions.old (positions_part l))
        × (h.new ≡ worked answer 0 h.old)
        × (pivots.new ≡ worked answer 0 pivots.old) }
{
    let code = lent_code(
        n, m, edges, rank, var, coef, row, start, col, order, parity, info, a,
    );
    found(words::info_positions(&code, positions, h, pivots), count)
}
