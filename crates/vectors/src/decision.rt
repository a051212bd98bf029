// The decision on a symbol.
ghost use Rattle.std.specs.Prelude.{◌≡◌};
ghost use Rattle.vectors.specs.Decision.{decision};

// The lowest of the greatest entries.
pub fn decide(p: &[f32; 32]) -> u8
    ensures { result ≡ decision p.now }
{
    let mut best = 0u8;
    for (x, y) in p.iter().enumerate() {
        if *y > p[best as usize] {
            best = x as u8;
        }
    }
    best
}
