// Number 6: whether what stands in lent parts is no graph with a column order. Each test is tried only where those before it let no index run outside. The C interface
// lends parts of fixed lengths, so what counts of each is told by a number beside it.
ghost use Rattle.std.specs.Prelude.{◌≡◌, not, ◌||◌, ℕ, ◌+◌, ◌-◌, ◌<◌, ◌≤◌, eqb, leb, ltb, length, drop};
ghost use Rattle.std.specs.List.{list_any};
ghost use Rattle.lists.specs.AnyBelow.{any_below};
ghost use Rattle.lists.specs.EachOnce.{repeated, each_once};
ghost use Rattle.lists.specs.Entry.{nth};
ghost use Rattle.lent.specs.Malformed.{bad_starts, twice, bad_coefs, foreign, disagree, unused_hold, malformed};
ghost use Rattle.lent.specs.Sound.{Fits};

use crate::Lent;

// Whether a start is past the next.
fn falls(starts: &[u16]) -> bool
    ensures { result ≡ any_below (length starts.now - 1) (λ i. ltb (nth starts.now (i + 1)) (nth starts.now i)) }
{
    !starts.is_sorted()
}

// Whether the starts of k lists do not go from 0 to the count without falling.
fn bad_starts(k: usize, count: usize, starts: &[u16]) -> bool
    requires { k < length starts.now }
    ensures { result ≡ bad_starts k count starts.now }
{
    (starts[0] != 0) | (falls(&starts[..k + 1]) | (starts[k] as usize != count))
}

// Whether an entry is not below the bound.
fn outside(bound: usize, part: &[u16]) -> bool
    ensures { result ≡ list_any (λ x. leb bound x) part.now }
{
    part.iter().any(|x| *x as usize >= bound)
}

// Whether two entries are the same.
fn repeated(part: &[u16]) -> bool
    requires { (j : ℕ) → j < length part.now → nth part.now j < 512 }
    ensures { result ≡ repeated (length part.now) (nth part.now) }
{
    let mut seen = [false; 512];
    for x in part {
        if seen[*x as usize] {
            return true;
        }
        seen[*x as usize] = true;
    }
    false
}

// Whether the entries are each number below their count once.
fn each_once(part: &[u16]) -> bool
    requires { length part.now ≤ 512 }
    ensures { result ≡ each_once (length part.now) (nth part.now) }
{
    !outside(part.len(), part) && !repeated(part)
}

// Whether a variable stands twice in one of m checks.
fn twice(m: usize, row: &[u16], var: &[u16]) -> bool
    requires m_in_bounds { (m < length row.now) × (length var.now ≡ 512) }
    requires by_index { ((c : ℕ) → c < m → nth row.now c ≤ nth row.now (c + 1)) × (nth row.now m ≤ 512) }
    requires by_index_2 { (e : ℕ) → e < nth row.now m → nth var.now e < 512 }
    ensures { result ≡ twice m row.now var.now }
{
    // No plainer: check c's edges begin and end by row[c] and row[c + 1].
    for c in 0..m {
        if repeated(&var[row[c] as usize..row[c + 1] as usize]) {
            return true;
        }
    }
    false
}

// Whether a coefficient is not 1 to 31.
fn bad_coefs(coef: &[u8]) -> bool
    ensures { result ≡ list_any (λ x. eqb x 0 || ltb 31 x) coef.now }
{
    coef.iter().any(|x| (*x == 0) | (*x > 31))
}

// Whether one of the places is of another variable's edge.
fn foreign_list(v: usize, var: &[u16], places: &[u16]) -> bool
    requires { (j : ℕ) → j < length places.now → nth places.now j < length var.now }
    ensures { result ≡ any_below (length places.now) (λ j. not (eqb (nth var.now (nth places.now j)) v)) }
{
    for e in places {
        if var[*e as usize] as usize != v {
            return true;
        }
    }
    false
}

// Whether one of n variables' lists has another's edge.
fn foreign(n: usize, var: &[u16], start: &[u16], col: &[u16]) -> bool
    requires n_in_bounds { (n < length start.now) × (length var.now ≡ 512) × (length col.now ≡ 512) }
    requires by_index { ((v : ℕ) → v < n → nth start.now v ≤ nth start.now (v + 1)) × (nth start.now n ≤ 512) }
    requires by_index_2 { (k : ℕ) → k < nth start.now n → nth col.now k < 512 }
    ensures { result ≡ foreign n var.now start.now col.now }
{
    // No plainer: v's list begins and ends by start[v] and start[v + 1].
    for v in 0..n {
        if foreign_list(v, var, &col[start[v] as usize..start[v + 1] as usize]) {
            return true;
        }
    }
    false
}

// Whether the lists by variable disagree with the edges.
fn disagree(n: usize, count: usize, var: &[u16], start: &[u16], col: &[u16]) -> bool
    requires { (n < length start.now) × (count ≤ 512) × (length var.now ≡ 512) × (length col.now ≡ 512) }
    ensures { result ≡ disagree n count var.now start.now col.now }
{
    if bad_starts(n, count, start) {
        return true;
    }
    if !each_once(&col[..count]) {
        return true;
    }
    foreign(n, var, start, col)
}

// Whether an entry past the first k is not 0. Tried, slower: `any` leaves early, so that it becomes no vector code, and takes ten times as long. k may be past the part's end.
fn used_past<T: Copy + Into<u16>>(k: usize, part: &[T]) -> bool
    ensures { (value : T → ℕ) → ((x : T) (y : ℕ) → T.converts x y → y ≡ value x) → result ≡ list_any (λ x. not (eqb (value x) 0)) (drop k part.now) }
{
    let mut any = 0u16;
    for x in &part[k.min(part.len())..] {
        any |= (*x).into();
    }
    any != 0
}

// Whether an entry that the code's numbers leave unused is not 0. No plainer, here and below: a type for the three tests that ask for the lengths would serve one call.
fn unused_hold(code: &Lent) -> bool
    requires { Fits code.now.code code.now.parts }
    ensures { result ≡ unused_hold code.now.code code.now.parts }
{
    let k = code.numbers.n.saturating_sub(code.numbers.rank);
    used_past(code.numbers.edges, code.var)
        | (used_past(code.numbers.edges, code.coef)
            | (used_past(code.numbers.m + 1, code.row)
                | (used_past(code.numbers.n + 1, code.start)
                    | (used_past(code.numbers.edges, code.col)
                        | (used_past(code.numbers.n, code.order)
                            | (used_past(code.numbers.rank, code.parity)
                                | (used_past(k, code.info)
                                    | used_past(code.numbers.rank * k, code.a))))))))
}

pub fn malformed(code: &Lent) -> bool
    requires { Fits code.now.code code.now.parts }
    ensures { result ≡ malformed code.now.code code.now.parts }
{
    if code.numbers.edges > 512 {
        return true;
    }
    if bad_starts(code.numbers.m, code.numbers.edges, code.row) {
        return true;
    }
    if outside(code.numbers.n, &code.var[..code.numbers.edges]) {
        return true;
    }
    if twice(code.numbers.m, code.row, code.var) {
        return true;
    }
    if bad_coefs(&code.coef[..code.numbers.edges]) {
        return true;
    }
    if disagree(
        code.numbers.n,
        code.numbers.edges,
        code.var,
        code.start,
        code.col,
    ) {
        return true;
    }
    if !each_once(&code.order[..code.numbers.n]) {
        return true;
    }
    unused_hold(code)
}
