// The Walsh-Hadamard transform.
ghost use Rattle.std.specs.Prelude.{◌≡◌};
ghost use Rattle.vectors.specs.Wht.{wht};
ghost use Rattle.vectors.specs.Halves.{halves};

// Sums of neighbours to the lower half, differences to the upper: five times this are butterflies of step 1, 2, 4, 8 and 16, with one access pattern for all.
fn sums_and_differences(a: [f32; 32]) -> [f32; 32]
    ensures { result ≡ halves a }
{
    let mut b = a;
    // No plainer: k says where the two are read and where the two are written, and so it becomes vector code.
    for k in 0..16usize {
        let x = a[2 * k];
        let y = a[2 * k + 1];
        b[k] = x + y;
        b[k + 16] = x - y;
    }
    b
}

pub fn wht(a: [f32; 32]) -> [f32; 32]
    ensures { result ≡ wht a }
{
    let b = sums_and_differences(a);
    let c = sums_and_differences(b);
    let d = sums_and_differences(c);
    let e = sums_and_differences(d);
    sums_and_differences(e)
}
