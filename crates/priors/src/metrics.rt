// A frame's metrics with what its priors add. Each addition is rounded once, in the source's order.
ghost use Rattle.std.specs.Prelude.{◌≡◌, ℕ, ◌+◌, ◌*◌, ◌<◌, ◌≤◌, length};
ghost use Rattle.std.specs.Float.{binary32};
ghost use Rattle.std.specs.Float.Ieee.{add};
ghost use Rattle.lists.specs.Choice.{pick};
ghost use Rattle.lists.specs.Entry.{nth};
ghost use Rattle.lists.specs.Values.{values};
ghost use Rattle.vectors.specs.Vector.{at};
ghost use Rattle.priors.specs.WithPriors.{is_one, with_bit, with_bits, with_priors};

use calls::copy::copy;
use vectors::vector::{load, store};

// Whether bit k of five, the most significant first, is 1.
fn is_one(v: usize, k: usize) -> bool
    requires { k < 5 }
    ensures { result ≡ is_one v k }
{
    (v >> (4 - k)) % 2 == 1
}

// Adds to each value by its bit k.
fn add_either(p: [f32; 32], k: usize, zero: f32, one: f32) -> [f32; 32]
    requires { k < 5 }
    ensures { result ≡ values 32 (λ v. add binary32 (at p v) (pick (is_one v k) one zero)) }
{
    let mut q = p;
    for (v, x) in q.iter_mut().enumerate() {
        *x = *x + if is_one(v, k) { one } else { zero };
    }
    q
}

// Adds to the values alone whose bit k is 1.
fn add_to_ones(p: [f32; 32], k: usize, one: f32) -> [f32; 32]
    requires { k < 5 }
    ensures { result ≡ values 32 (λ v. pick (is_one v k) (add binary32 (at p v) one) (at p v)) }
{
    let mut q = p;
    for (v, x) in q.iter_mut().enumerate() {
        *x = if is_one(v, k) { *x + one } else { *x };
    }
    q
}

// What bit k of a symbol adds to its 32 metrics. It is padded bit b: one of the four of the padding, one with a prior, or one of which nothing is known.
fn add_bit(p: [f32; 32], prior: &[f32], b: usize, k: usize) -> [f32; 32]
    requires { k < 5 }
    ensures { result ≡ values 32 (λ v. with_bit prior.now b (is_one v k) (at p v)) }
{
    if b >= 256 {
        return add_to_ones(p, k, -100.0);
    }
    if b < prior.len() {
        return add_either(p, k, 0.5 * prior[b], -0.5 * prior[b]);
    }
    p
}

// The 32 metrics of a symbol with what its five bits add.
fn add_bits(p: [f32; 32], prior: &[f32], bits: &[u16]) -> [f32; 32]
    requires { length bits.now ≡ 5 }
    ensures { result ≡ with_bits prior.now (nth bits.now) p }
{
    let mut q = p;
    for (k, b) in bits.iter().enumerate() {
        let next = add_bit(q, prior, *b as usize, k);
        q = next;
    }
    q
}

// A frame's metrics with its priors, to a part as long. `bit` names the padded bit at each packed position and `slot` the information slot of each packed symbol.
pub fn with_priors(
    info: &[u16],
    bit: &[u16; 260],
    slot: &[u8; 52],
    prior: &[f32],
    metrics: &[f32],
    with: &mut [f32],
)
    requires same_length { length with.old ≡ length metrics.now }
    requires slots_inside { (j : ℕ) → j < 52 → nth slot.now j < length info.now }
    requires positions_inside { (j : ℕ) → j < 52 → nth info.now (nth slot.now j) * 32 + 32 ≤ length metrics.now }
    ensures { with.new ≡ with_priors (nth bit.now) (λ j. nth info.now (nth slot.now j)) prior.now metrics.now }
{
    copy(metrics, with);
    for (j, s) in slot.iter().enumerate() {
        let place = info[*s as usize] as usize;
        let p = load(with, place);
        let q = add_bits(p, prior, &bit[5 * j..5 * j + 5]);
        store(with, place, &q);
    }
}
