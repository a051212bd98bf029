// The field of 32 elements: GF(2^5) with the primitive polynomial x^5 + x^2 + 1. The sum is `^`.
ghost use Rattle.std.specs.Prelude.{◌≡◌};
ghost use Rattle.lists.specs.Values.{values};
ghost use Rattle.field.specs.Field.{product, inverse};

use crate::tables::{EXP, LOG, PRODUCTS};

// Of a factor above 31 the five lowest bits count.
pub fn mul(a: u8, b: u8) -> u8
    ensures { result ≡ product a b }
{
    let x = (a % 32) as usize;
    let y = (b % 32) as usize;
    if (x == 0) | (y == 0) {
        return 0;
    }
    EXP[LOG[x] as usize + LOG[y] as usize]
}

// No plainer as an `Option`: 0 has no inverse, and 0 is answered for it, as the definition says; whoever calls from outside is refused before.
pub fn inv(a: u8) -> u8
    ensures { result ≡ inverse a }
{
    let x = (a % 32) as usize;
    if x == 0 {
        return 0;
    }
    let i = LOG[x] as usize;
    EXP[(31 - i) % 31]
}

// The products with 0, 1, .., 31, by the five lowest bits of the factor: a loop over them has no branch.
pub fn products_of(a: u8) -> &'static [u8; 32]
    ensures { result.now ≡ values 32 (product a) }
{
    &PRODUCTS[(a % 32) as usize]
}
