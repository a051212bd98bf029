// Vectors carried to the multiples of their values by a coefficient, and back.
ghost use Rattle.std.specs.Prelude.{◌≡◌};
ghost use Rattle.vectors.specs.Multiplied.{permuted, raised, read_back};

use field::gf::products_of;

// The entry at value x goes to h times x.
pub fn permute(h: u8, p: [f32; 32]) -> [f32; 32]
    ensures { result ≡ permuted h p }
{
    let mut t = [0.0f32; 32];
    for (x, place) in products_of(h).iter().enumerate() {
        t[*place as usize] = p[x];
    }
    t
}

// The entry at h times x, raised to 1e-30, comes to x.
pub fn read_back(h: u8, p: [f32; 32]) -> [f32; 32]
    ensures { result ≡ read_back h p }
{
    let mut q = p;
    for (x, place) in products_of(h).iter().enumerate() {
        q[x] = raise(p[*place as usize]);
    }
    q
}

pub fn raise(y: f32) -> f32
    ensures { result ≡ raised y }
{
    if y > 1e-30 { y } else { 1e-30 }
}
