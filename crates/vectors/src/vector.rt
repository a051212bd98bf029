// Vectors in a part, and their products.
ghost use Rattle.std.specs.Prelude.{◌≡◌, ◌+◌, ◌*◌, ◌≤◌, length};
ghost use Rattle.vectors.specs.Vector.{vector, stored, entry_product};

// The vector numbered i. Tried, slower: `copy_from_slice`, here and below, 11.7 ns against 3.3 for a load and a store.
pub fn load(part: &[f32], i: usize) -> [f32; 32]
    requires { i * 32 + 32 ≤ length part.now }
    ensures { result ≡ vector part.now i }
{
    let mut p = [0.0f32; 32];
    for (x, y) in p.iter_mut().enumerate() {
        *y = part[i * 32 + x];
    }
    p
}

pub fn store(part: &mut [f32], i: usize, p: &[f32; 32])
    requires { i * 32 + 32 ≤ length part.old }
    ensures { part.new ≡ stored part.old i p.now }
{
    for (x, y) in p.iter().enumerate() {
        part[i * 32 + x] = *y;
    }
}

// Tried, not proved: a `zip` of both, of which it is not known what it writes.
pub fn multiply(p: [f32; 32], q: &[f32; 32]) -> [f32; 32]
    ensures { result ≡ entry_product p q.now }
{
    let mut r = p;
    for (x, y) in r.iter_mut().enumerate() {
        *y = *y * q[x];
    }
    r
}
