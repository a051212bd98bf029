// The degrees of a rate's positions, which are also the preferences by which its code is peeled.
ghost use Rattle.std.specs.Prelude.{◌≡◌, ℕ, ◌<◌, ◌≤◌, map, pos, length};
ghost use Rattle.lists.specs.Entry.{nth};
ghost use Rattle.rates.specs.Rate.{rate_degrees};

use crate::Rate;

// The degree of each position.
pub fn lay(rate: Rate, degrees: &mut [usize])
    requires { length degrees.old ≡ rate.n }
    ensures { degrees.new ≡ rate_degrees rate }
{
    for (v, degree) in degrees.iter_mut().enumerate() {
        *degree = if v < rate.heavy { rate.degree } else { 2 };
    }
}

// Each degree as a preference, a signed number.
pub fn prefer(degrees: &[usize], prefer: &mut [i64])
    requires lengths { length prefer.old ≡ length degrees.now }
    requires low { (v : ℕ) → v < length degrees.now → nth degrees.now v ≤ 256 }
    ensures { prefer.new ≡ map (λ d. pos d) degrees.now }
{
    for (v, degree) in degrees.iter().enumerate() {
        prefer[v] = *degree as i64;
    }
}
