// Normalising a vector.
ghost use Rattle.std.specs.Prelude.{◌≡◌};
ghost use Rattle.vectors.specs.Normalized.{entry_sum, scaled, normalized};

fn sum_of(p: &[f32; 32]) -> f32
    ensures { result ≡ entry_sum p.now }
{
    let mut s = 0.0f32;
    for x in p {
        s += *x;
    }
    s
}

fn scale(p: [f32; 32], k: f32) -> [f32; 32]
    ensures { result ≡ scaled p k }
{
    let mut q = p;
    for x in q.iter_mut() {
        *x = *x * k;
    }
    q
}

// A vector whose sum vanished, or is not finite, becomes the uniform one.
pub fn normalize(p: [f32; 32]) -> [f32; 32]
    ensures { result ≡ normalized p }
{
    let s = sum_of(&p);
    if (s > 1e-30) & (s <= 3.4028235e38) {
        return scale(p, 1.0 / s);
    }
    [0.03125; 32]
}
