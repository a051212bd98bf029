// SpreadHeavy: the check-in's variable bits are dealt over the heavy slots' symbols, the other bits take the free places.
ghost use Rattle.std.specs.Prelude.{◌≡◌, ℕ, false, not, ◌<◌, ◌≤◌, length, get_or, replicate};
ghost use Rattle.lists.specs.Entry.{nth};
ghost use Rattle.lists.specs.Keep.{keep_below};
ghost use Rattle.lists.specs.Marks.{Marks};
ghost use Rattle.lists.specs.Placed.{placed};
ghost use Rattle.layouts.specs.Slots.{Distinct};
ghost use Rattle.layouts.specs.SpreadHeavy.{dealt, deal, spread_over};
ghost use Rattle.layouts.specs.VariableBits.{variable};

use crate::variable::variable_bits;
use arrayvec::ArrayVec;

// How many bits are dealt: all, or as many as the slots have places.
fn dealt(slots: &[u8]) -> usize
    requires { length slots.now ≤ 52 }
    ensures { result ≡ dealt slots.now }
{
    (5 * slots.len()).min(96)
}

// The place of the t-th.
fn deal(slots: &[u8], t: usize) -> usize
    requires { (Distinct slots.now) × (t < dealt slots.now) }
    ensures { result ≡ deal slots.now t }
{
    let h = slots.len();
    5 * slots[t % h] as usize + t / h
}

// The dealt bits at their places, with a mark at each of these bits and at each of these places.
#[derive(Clone, Copy)]
struct DealtBits {
    pos: [u16; 260],
    used: [bool; 260],
    taken: [bool; 260],
}

fn deal_bits(slots: &[u8]) -> DealtBits
    requires { (Distinct slots.now) × (length slots.now ≤ 52) }
    ensures pos_value { result.pos ≡ placed (dealt slots.now) variable (deal slots.now) (replicate 260 0) }
    ensures marks { (Marks 260 variable (dealt slots.now) result.used) × (Marks 260 (deal slots.now) (dealt slots.now) result.taken) }
{
    let bits = variable_bits();
    let mut pos = [0u16; 260];
    let mut used = [false; 260];
    let mut taken = [false; 260];
    for t in 0..dealt(slots) {
        let b = bits[t] as usize;
        let p = deal(slots, t);
        pos[b] = p as u16;
        used[b] = true;
        taken[p] = true;
    }
    DealtBits { pos, used, taken }
}

// The numbers without a mark, ascending.
#[tactic(auto, unfolding(lists::specs::Keep::keep_below, lists::specs::Choice::pick))]
fn unmarked(marks: &[bool; 260]) -> ArrayVec<u16, 260>
    ensures { result.items ≡ keep_below (λ x. not (get_or marks.now x false)) 260 }
{
    let mut free = ArrayVec::new();
    for (x, marked) in marks.iter().enumerate() {
        if !*marked {
            free.push(x as u16);
        }
    }
    free
}

// Each bit to the place beside it.
fn fill(bits: &[u16], places: &[u16], pos: &mut [u16; 260])
    requires { (length bits.now ≤ length places.now) × ((i : ℕ) → i < length bits.now → nth bits.now i < 260) }
    ensures { pos.new ≡ placed (length bits.now) (nth bits.now) (nth places.now) pos.old }
{
    for (i, b) in bits.iter().enumerate() {
        pos[*b as usize] = places[i];
    }
}

pub fn spread_over(slots: &[u8]) -> [u16; 260]
    requires { (Distinct slots.now) × (length slots.now ≤ 52) }
    ensures { result ≡ spread_over slots.now }
{
    let given = deal_bits(slots);
    let mut pos = given.pos;
    fill(&unmarked(&given.used), &unmarked(&given.taken), &mut pos);
    pos
}
