// The choice of a check among candidates, by load and draw.
ghost use Rattle.std.specs.Prelude.{◌≡◌, ◌<◌, ◌≤◌, length};
ghost use Rattle.lists.specs.Entry.{nth};
ghost use Rattle.growth.specs.PickMin.{least, lightest, pick_min};

use arrayvec::ArrayVec;

// The least load of the candidates.
#[tactic(auto, unfolding(crate::specs::PickMin::least))]
fn least(load: &[u16], cand: &[u8]) -> u16
    requires { (length load.now ≡ 256) × (0 < length cand.now) }
    ensures { result ≡ least (nth load.now) cand.now }
{
    let mut lo = load[cand[0] as usize];
    for c in cand {
        lo = lo.min(load[*c as usize]);
    }
    lo
}

// The candidates of least load, in their order.
#[tactic(auto, unfolding(crate::specs::PickMin::lightest, lists::specs::Keep::keep, lists::specs::Choice::pick))]
fn lightest(load: &[u16], cand: &[u8]) -> ArrayVec<u8, 256>
    requires { (length load.now ≡ 256) × (0 < length cand.now) × (length cand.now ≤ 256) }
    ensures { result.items ≡ lightest (nth load.now) cand.now }
{
    let lo = least(load, cand);
    let mut best = ArrayVec::new();
    for c in cand {
        if load[*c as usize] == lo {
            best.push(*c);
        }
    }
    best
}

pub fn pick_min(load: &[u16], cand: &[u8], draw: u64) -> u8
    requires { (length load.now ≡ 256) × (0 < length cand.now) × (length cand.now ≤ 256) }
    ensures { result ≡ pick_min (nth load.now) cand.now draw }
{
    let best = lightest(load, cand);
    best[(draw % (best.len() as u64)) as usize]
}
