// The likeliest value of a vector and the second likeliest.
ghost use Rattle.std.specs.Prelude.{◌≡◌, ◌<◌};
ghost use Rattle.vectors.specs.declared.likeliest.Two.{Two};
ghost use Rattle.vectors.specs.Likeliest.{likeliest_two, margin};

use crate::multiplied::raise;

#[derive(Clone, Copy, Debug, PartialEq, Eq)]
pub struct Two {
    pub first: u8,
    pub second: u8,
}

pub fn likeliest_two(p: &[f32; 32]) -> Two
    ensures { (◌≡◌ {A = Two} result (likeliest_two p.now)) × (result.first < 32) × (result.second < 32) }
{
    let mut first = 0u8;
    let mut second = 1u8;
    if p[1] > p[0] {
        first = 1;
        second = 0;
    }
    // No plainer: the value is the answer, and the first two are compared already.
    for x in 2..32u8 {
        if p[x as usize] > p[first as usize] {
            second = first;
            first = x;
        } else if p[x as usize] > p[second as usize] {
            second = x;
        }
    }
    Two { first, second }
}

// How many times as likely the first is, each of them raised to 1e-30.
pub fn margin(p: &[f32; 32], two: Two) -> f32
    requires { ◌≡◌ {A = Two} two (likeliest_two p.now) × (two.first < 32) × (two.second < 32) }
    ensures { result ≡ margin p.now }
{
    let first = two.first as usize;
    let second = two.second as usize;
    raise(p[first]) / raise(p[second])
}
