// The choice among the unknown symbols.
ghost use Rattle.std.specs.Prelude.{◌≡◌, false, not, ◌≤◌, pos, length, get_or};
ghost use Rattle.std.specs.List.{position};
ghost use Rattle.lists.specs.Entry.{nth};
ghost use Rattle.peeling.specs.Best.{is_last, overtakes, replaces, best};

// Which of equal symbols is taken.
#[derive(Clone, Copy, Debug, PartialEq, Eq)]
pub enum Tie {
    First,
    Last,
}

// Whether preference y is taken over x, which stands before it.
fn overtakes(tie: Tie, x: i64, y: i64) -> bool
    ensures { result ≡ overtakes (is_last tie) x y }
{
    match tie {
        Tie::First => x < y,
        Tie::Last => x <= y,
    }
}

// Whether a symbol that frees fy checks and has preference py is taken over one before it, of fx and px. No plainer as an order of pairs: of equal ones the tie decides.
fn replaces(tie: Tie, fx: u16, px: i64, fy: u16, py: i64) -> bool
    ensures { result ≡ replaces (is_last tie) (fx, px) (fy, py) }
{
    if fx == fy {
        return overtakes(tie, px, py);
    }
    fx < fy
}

// The lowest unknown symbol.
fn first_unknown(known: &[bool]) -> Option<usize>
    ensures { result ≡ position (λ k. not k) known.now }
{
    known.iter().position(|k| !*k)
}

// The best unknown symbol, or the number of all, with which the definition begins.
pub fn best(tie: Tie, known: &[bool], freed: &[u16], prefer: &[i64]) -> usize
    requires { (length known.now ≤ length freed.now) × (length known.now ≤ length prefer.now) }
    ensures { result ≡ best (is_last tie) (length known.now) (λ v. get_or known.now v false) (λ v. (nth freed.now v, get_or prefer.now v (pos 0))) }
{
    // No plainer: the definition begins with the lowest unknown symbol, which is the number of all where none is.
    let mut b = first_unknown(known).unwrap_or(known.len());
    // No plainer: three parts are read at the place, and the place is the answer.
    for v in 0..known.len() {
        if !known[v] {
            if replaces(tie, freed[b], prefer[b], freed[v], prefer[v]) {
                b = v;
            }
        }
    }
    b
}
