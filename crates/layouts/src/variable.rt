// The check-in's variable bits, and the order of the packed symbols by these.
ghost use Rattle.std.specs.Prelude.{◌≡◌, ◌==◌, ◌+◌, ◌-◌, ◌≤◌, ◌++◌, length};
ghost use Rattle.std.specs.List.{list_any};
ghost use Rattle.lists.specs.Values.{values};
ghost use Rattle.layouts.specs.Heavy.{push_new, symbol_order};
ghost use Rattle.layouts.specs.VariableBits.{range, variable_bits};

use arrayvec::ArrayVec;

// The bits of a check-in that its receiver cannot know beforehand, field by field: from the first of a pair up to, and not including, the second.
const CHECKIN_VARIABLE_BITS: [(u16, u16); 5] = [
    (96, 104),
    (104, 112),
    (120, 128),
    (224, 256),
    (56, 96),
];

fn push_range(bits: &mut ArrayVec<u16, 96>, from: u16, to: u16)
    requires { (from ≤ to) × (length bits.old.items + (to - from) ≤ 96) }
    ensures { bits.new.items ≡ bits.old.items ++ range (from, to) }
{
    for b in from..to {
        bits.push(b);
    }
}

pub fn variable_bits() -> ArrayVec<u16, 96>
    ensures { result.items ≡ variable_bits }
{
    let mut bits = ArrayVec::new();
    for (from, to) in CHECKIN_VARIABLE_BITS {
        push_range(&mut bits, from, to);
    }
    bits
}

fn is_among(order: &[u8], j: u8) -> bool
    ensures { result ≡ list_any (λ x. x == j) order.now }
{
    order.iter().any(|x| *x == j)
}

// j at the end, where it does not stand yet.
fn push_new(order: &mut ArrayVec<u8, 52>, j: u8)
    requires { length (push_new order.old.items j) ≤ 52 }
    ensures { order.new.items ≡ push_new order.old.items j }
{
    if !is_among(order, j) {
        order.push(j);
    }
}

// The packed symbols that hold variable bits, in the order of these, and then the others.
pub fn symbol_order() -> ArrayVec<u8, 52>
    ensures { result.items ≡ values 52 symbol_order }
{
    let bits = variable_bits();
    let mut order = ArrayVec::new();
    for b in bits.iter() {
        push_new(&mut order, (*b / 5) as u8);
    }
    for j in 0..52u8 {
        push_new(&mut order, j);
    }
    order
}
