// A frame's priors: whether there are any, and the metrics with what they add.
#![tactic(auto)]

ghost use Rattle.std.specs.Prelude.{◌≡◌};
ghost use Rattle.priors.specs.Present.{present};

pub mod metrics;

// Whether some entry is not equal to 0.0: then there is a prior. A NaN is not equal to it.
pub fn present(prior: &[f32]) -> bool
    ensures { result ≡ present prior.now }
{
    prior.iter().any(|a| *a != 0.0)
}
