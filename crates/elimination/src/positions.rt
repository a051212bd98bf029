// Positions that stand in a list, and the others.
ghost use Rattle.std.specs.Prelude.{◌≡◌, ◌==◌, not, ◌≤◌, length};
ghost use Rattle.std.specs.List.{list_any};
ghost use Rattle.lists.specs.Among.{among};
ghost use Rattle.lists.specs.Entry.{nth};
ghost use Rattle.lists.specs.Keep.{keep_below};
ghost use Rattle.lists.specs.Laid.{laid};

// Whether j is one of the positions listed.
pub fn is_among(listed: &[u16], j: usize) -> bool
    ensures { result ≡ list_any (λ p. p == j) listed.now }
{
    listed.iter().any(|p| *p as usize == j)
}

// The positions below n that are not listed, to the front of `out`. Answers how many they are.
pub fn others(n: usize, listed: &[u16], out: &mut [u16]) -> usize
    requires { (n ≤ 256) × (length out.old ≡ 256) }
    ensures value { result ≡ length (keep_below (λ j. not (among (length listed.now) (nth listed.now) j)) n) }
    ensures out_after { out.new ≡ laid (keep_below (λ j. not (among (length listed.now) (nth listed.now) j)) n) out.old }
{
    let mut k = 0;
    // Tried, not proved: of `(0..n).filter(..)` the check does not know that j is below n, so that `j as u16` stays open.
    for j in 0..n {
        if !is_among(listed, j) {
            out[k] = j as u16;
            k += 1;
        }
    }
    k
}
