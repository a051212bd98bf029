// The check step. A check's messages are worked out where they stand: first the product of the inputs before each, then times that of the inputs after it.
ghost use Rattle.std.specs.Prelude.{◌≡◌, ◌+◌, ◌-◌, ◌≤◌, length};
ghost use Rattle.rounds.specs.CheckStep.{input, product_of, outgoing};
ghost use Rattle.rounds.specs.Checked.{Checked, Messages, message_in};
ghost use Rattle.rounds.specs.Work.{vectors_length, to_checks, inputs, Wrote, from_check_at, input_at};

use crate::rows::{FROM_CHECKS, INPUTS, TO_CHECKS};
use vectors::multiplied::{permute, read_back};
use vectors::normalize::normalize;
use vectors::vector::{load, multiply, store};
use vectors::wht::wht;

// The transformed inputs of the check whose d edges begin at place lo. No plainer, here and below: one record, `Checked`,
// says all that is asked of coefficients, places and vectors.
fn transform_inputs(coef: &[u8], lo: usize, d: usize, w: &mut [f32])
    requires { Checked coef.now lo d w.old }
    ensures { Wrote d input_at (λ j. input coef.now (to_checks w.old) (lo + j)) w.old w.new }
{
    for (j, h) in coef[lo..lo + d].iter().enumerate() {
        let p = load(w, TO_CHECKS + (lo + j));
        let q = permute(*h, p);
        let f = wht(q);
        store(w, INPUTS + j, &f);
    }
}

// The products of the inputs before each edge.
fn multiply_before(lo: usize, d: usize, w: &mut [f32])
    requires { (lo + d ≤ 512) × (d ≤ 32) × (length w.old ≡ vectors_length) }
    ensures { Wrote d (λ j. from_check_at (lo + j)) (λ j. product_of j (inputs w.old)) w.old w.new }
{
    let mut before = [1.0f32; 32];
    // No plainer: j numbers the edges of the check, whose vectors stand in two rows.
    for j in 0..d {
        let e = lo + j;
        store(w, FROM_CHECKS + e, &before);
        let f = load(w, INPUTS + j);
        before = multiply(before, &f);
    }
}

// The message over an edge with coefficient h: the products transformed again, read back by h and normalised.
fn message(h: u8, p: [f32; 32]) -> [f32; 32]
    ensures { result ≡ outgoing h p }
{
    let f = wht(p);
    let q = read_back(h, f);
    normalize(q)
}

// Each of them times the product of the inputs after its edge, from the last edge down, and made the message.
fn multiply_after(coef: &[u8], lo: usize, d: usize, w: &mut [f32])
    requires { Checked coef.now lo d w.old }
    ensures { Wrote d (λ j. from_check_at (lo + (d - 1 - j))) (λ j. message_in coef.now lo d w.old j) w.old w.new }
{
    let mut after = [1.0f32; 32];
    // No plainer: i numbers the edges too, from the last one down.
    for i in (0..d).rev() {
        let e = lo + i;
        let before = load(w, FROM_CHECKS + e);
        let others = multiply(before, &after);
        let out = message(coef[e], others);
        store(w, FROM_CHECKS + e, &out);
        let f = load(w, INPUTS + i);
        after = multiply(after, &f);
    }
}

// The messages from the check.
pub fn check(coef: &[u8], lo: usize, d: usize, w: &mut [f32])
    requires { Checked coef.now lo d w.old }
    ensures { Messages coef.now lo (lo + d) w.old w.new }
{
    transform_inputs(coef, lo, d, w);
    multiply_before(lo, d, w);
    multiply_after(coef, lo, d, w);
}
