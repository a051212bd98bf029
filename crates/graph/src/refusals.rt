// The tests by which calls are turned down, and their numbers in document 01's order.
ghost use Rattle.std.specs.Prelude.{◌≡◌, ◌∷◌, [], length, ltb};
ghost use Rattle.std.specs.List.{list_any};
ghost use Rattle.calls.specs.Refusal.{first_of, answered, misfits};
ghost use Rattle.graph.specs.Sizes.{too_large};
ghost use Rattle.graph.specs.New.{too_many, too_high};

use calls::Refusal;

fn too_large(n: usize, m: usize) -> bool
    ensures { result ≡ too_large n m }
{
    (n > 256) | (m > 256)
}

// Whether a part of a code has a wrong length; `rest` says so of further parts. The C interface: the parts are lent flat, so their lengths are nine numbers.
pub fn code_misfit(
    var: usize,
    coef: usize,
    row: usize,
    start: usize,
    col: usize,
    order: usize,
    parity: usize,
    info: usize,
    a: usize,
    rest: bool,
) -> bool
    ensures { result ≡ misfits ((var, 512) ∷ (coef, 512) ∷ (row, 257) ∷ (start, 257) ∷ (col, 512) ∷ (order, 256) ∷ (parity, 256) ∷ (info, 256) ∷ (a, 16384) ∷ []) rest }
{
    (var != 512)
        | ((coef != 512)
            | ((row != 257)
                | ((start != 257)
                    | ((col != 512)
                        | ((order != 256)
                            | ((parity != 256) | ((info != 256) | ((a != 16384) | rest))))))))
}

// The same of the work parts of `new`.
pub fn work_misfit(chk: usize, load: usize, own: usize, deg: usize, rest: bool) -> bool
    ensures { result ≡ misfits ((chk, 65536) ∷ (load, 256) ∷ (own, 65536) ∷ (deg, 256) ∷ []) rest }
{
    (chk != 65536) | ((load != 256) | ((own != 65536) | ((deg != 256) | rest)))
}

// 2 and 3, which touch nothing.
pub fn early(n: usize, m: usize, misfit: bool) -> Result<(), Refusal>
    ensures { result ≡ answered (first_of ((too_large n m, Refusal.Size) ∷ (misfit, Refusal.Length) ∷ [])) tt }
{
    if too_large(n, m) {
        return Err(Refusal::Size);
    }
    if misfit {
        return Err(Refusal::Length);
    }
    Ok(())
}

// The sum stops at the first degree that takes it above 512, so it cannot overflow.
fn too_many(degrees: &[usize]) -> bool
    ensures { result ≡ too_many (length degrees.now) degrees.now }
{
    let mut sum = 0usize;
    for degree in degrees {
        if *degree > 512 - sum {
            return true;
        }
        sum += *degree;
    }
    false
}

fn too_high(m: usize, degrees: &[usize]) -> bool
    ensures { result ≡ list_any (λ d. ltb m d) degrees.now }
{
    degrees.iter().any(|degree| *degree > m)
}

// 4 and 5.
pub fn bad_degrees(m: usize, degrees: &[usize]) -> Result<(), Refusal>
    ensures { result ≡ answered (first_of ((too_many (length degrees.now) degrees.now, Refusal.DegreeSum) ∷ (too_high (length degrees.now) m degrees.now, Refusal.DegreeTooHigh) ∷ [])) tt }
{
    if too_many(degrees) {
        return Err(Refusal::DegreeSum);
    }
    if too_high(m, degrees) {
        return Err(Refusal::DegreeTooHigh);
    }
    Ok(())
}
