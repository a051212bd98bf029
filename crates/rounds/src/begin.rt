// The state before the first round.
ghost use Rattle.std.specs.Prelude.{◌≡◌, ℕ, ◌+◌, ◌*◌, ◌-◌, ◌<◌, ◌≤◌, length, replicate};
ghost use Rattle.lists.specs.Entry.{nth};
ghost use Rattle.lists.specs.Values.{values};
ghost use Rattle.vectors.specs.Float32.{zero32};
ghost use Rattle.vectors.specs.Vector.{vector};
ghost use Rattle.vectors.specs.Channel.{channel};
ghost use Rattle.vectors.specs.KnownZero.{known_zero};
ghost use Rattle.rounds.specs.Begin.{channels};
ghost use Rattle.rounds.specs.Work.{vectors_length, Wrote, to_check_at, post_at};
ghost use Rattle.rounds.specs.Holds.{Begun};
ghost use Rattle.rounds.specs.Ready.{Ends};

use crate::rows::{POSTERIORS, TO_CHECKS};
use vectors::channel::channel;
use vectors::vector::{load, store};

// The channel vectors of n variables, by their metrics.
fn begin_channel(n: usize, metrics: &[f32], w: &mut [f32])
    requires { (n ≤ 256) × (length metrics.now ≡ n * 32) × (length w.old ≡ vectors_length) }
    ensures { Wrote n (λ v. v) (λ v. channel (vector metrics.now v)) w.old w.new }
{
    // No plainer: v numbers the vectors of both parts.
    for v in 0..n {
        let m = load(metrics, v);
        let p = channel(m);
        store(w, v, &p);
    }
}

// Known zeros, over what the metrics gave: the information positions past the known ones.
fn begin_zeros(past: &[u16], w: &mut [f32])
    requires w_len { length w.old ≡ vectors_length }
    requires by_index { (t : ℕ) → t < length past.now → nth past.now t < 256 }
    ensures { Wrote (length past.now) (nth past.now) (λ _. known_zero) w.old w.new }
{
    let mut zero = [0.0f32; 32];
    zero[0] = 1.0;
    for v in past {
        store(w, *v as usize, &zero);
    }
}

// The first messages to checks are the channel vectors as they are.
fn begin_messages(n: usize, edges: usize, var: &[u16], w: &mut [f32])
    requires { (n ≤ 256) × (Ends n edges var.now) × (length w.old ≡ vectors_length) }
    ensures { Wrote edges to_check_at (λ e. vector w.old (nth var.now e)) w.old w.new }
{
    for (e, v) in var[..edges].iter().enumerate() {
        let p = load(w, *v as usize);
        store(w, TO_CHECKS + e, &p);
    }
}

// No round is made yet.
fn begin_posteriors(n: usize, w: &mut [f32])
    requires { (n ≤ 256) × (length w.old ≡ vectors_length) }
    ensures { Wrote n post_at (λ _. replicate 32 zero32) w.old w.new }
{
    let from = POSTERIORS * 32;
    w[from..from + n * 32].fill(0.0);
}

// The state before the first round, in the work part. The C interface: var and info are lent parts, of which `edges` and k entries count.
pub fn begin(
    n: usize,
    edges: usize,
    k: usize,
    known: usize,
    var: &[u16],
    info: &[u16],
    metrics: &[f32],
    w: &mut [f32],
)
    requires n_bound { (n ≤ 256) × (length metrics.now ≡ n * 32) × (length w.old ≡ vectors_length) }
    requires ends { (Ends n edges var.now) × (known ≤ k) × (k ≤ length info.now) }
    requires by_index { (t : ℕ) → t < k → nth info.now t < 256 }
    ensures { Begun n edges var.now (channels (values k (nth info.now)) metrics.now known) w.new }
{
    begin_channel(n, metrics, w);
    begin_zeros(&info[known..k], w);
    begin_messages(n, edges, var, w);
    begin_posteriors(n, w);
}
