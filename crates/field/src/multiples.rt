// Products of many elements by one factor: the factor's multiples are made once, and each product is then a sum of some of them, with no table to copy and no
// branch, so that a loop over a row is turned into vector code.
ghost use Rattle.std.specs.Prelude.{◌≡◌, ◌<◌};
ghost use Rattle.field.specs.Field.{product};
ghost use Rattle.field.specs.Multiples.{multiples_of, combined};

// The factor times 1, x, x^2, x^3 and x^4. No plainer as an array: the clauses name each.
#[derive(Clone, Copy, Debug, PartialEq, Eq)]
pub struct Multiples {
    pub m0: u8,
    pub m1: u8,
    pub m2: u8,
    pub m3: u8,
    pub m4: u8,
}

// x times an element: where the product reaches x^5, the modulus cancels it.
#[tactic(auto, using(crate::proofs::Combined::x_product))]
fn times_x(a: u8) -> u8
    requires { a < 32 }
    ensures { result ≡ product a 2 }
{
    (a * 2) ^ ((a >> 4) * 37)
}

impl Multiples {
    pub fn of(f: u8) -> Multiples
        ensures { result ≡ multiples_of f }
    {
        let m0 = f % 32;
        let m1 = times_x(m0);
        let m2 = times_x(m1);
        let m3 = times_x(m2);
        let m4 = times_x(m3);
        Multiples { m0, m1, m2, m3, m4 }
    }

    // The multiples at the digits of p that are 1; of p the five lowest digits count.
    #[tactic(auto, unfolding(crate::specs::Multiples::combined))]
    pub fn times(self, p: u8) -> u8
        ensures { result ≡ combined self p }
    {
        ((p % 2) * self.m0)
            ^ (((p >> 1) % 2) * self.m1)
            ^ (((p >> 2) % 2) * self.m2)
            ^ (((p >> 3) % 2) * self.m3)
            ^ (((p >> 4) % 2) * self.m4)
    }
}
