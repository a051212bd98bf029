// The tables of a map.
ghost use Rattle.std.specs.Prelude.{◌≡◌, ℕ, ◌*◌, ◌%◌, ◌<◌, length};
ghost use Rattle.lists.specs.Entry.{nth};
ghost use Rattle.lists.specs.Values.{values};
ghost use Rattle.layouts.specs.Heavy.{taken_by};
ghost use Rattle.layouts.specs.Layout.{bit_of};
ghost use Rattle.layouts.specs.Maps.{pos_of, slot_of};

use crate::BitMap;
use crate::slots::{heavy, strong};
use crate::spread::spread_over;
use crate::variable::symbol_order;

fn plain() -> [u16; 260]
    ensures { result ≡ values 260 (λ i. i) }
{
    let mut pos = [0u16; 260];
    for (i, p) in pos.iter_mut().enumerate() {
        *p = i as u16;
    }
    pos
}

fn spread() -> [u16; 260]
    ensures { result ≡ values 260 (λ i. 53 * i % 260) }
{
    let mut pos = [0u16; 260];
    for (i, p) in pos.iter_mut().enumerate() {
        *p = (53 * i % 260) as u16;
    }
    pos
}

fn own_slots() -> [u8; 52]
    ensures { result ≡ values 52 (λ j. j) }
{
    let mut slot = [0u8; 52];
    for (j, s) in slot.iter_mut().enumerate() {
        *s = j as u8;
    }
    slot
}

// The r-th packed symbol of the order takes the r-th of the slots.
fn taken_by(slots: &[u8; 52]) -> [u8; 52]
    ensures { result ≡ taken_by slots.now }
{
    let order = symbol_order();
    let mut slot = own_slots();
    for (r, j) in order.iter().enumerate() {
        slot[*j as usize] = slots[r];
    }
    slot
}

// The packed position of each padded bit.
#[tactic(auto, unfolding(crate::specs::Maps::pos_of))]
pub fn positions(map: BitMap, degrees: &[usize]) -> [u16; 260]
    requires { length degrees.now ≡ 52 }
    ensures { result ≡ pos_of map degrees.now }
{
    match map {
        BitMap::Plain => plain(),
        BitMap::Heavy => plain(),
        BitMap::Spread => spread(),
        BitMap::SpreadHeavy => spread_over(&heavy(degrees)),
    }
}

// The information slot of each packed symbol.
#[tactic(auto, unfolding(crate::specs::Maps::slot_of))]
pub fn slots(map: BitMap, degrees: &[usize]) -> [u8; 52]
    requires { length degrees.now ≡ 52 }
    ensures { result ≡ slot_of map degrees.now }
{
    match map {
        BitMap::Plain => own_slots(),
        BitMap::Heavy => taken_by(&strong(degrees)),
        BitMap::Spread => own_slots(),
        BitMap::SpreadHeavy => own_slots(),
    }
}

// The padded bit at each packed position.
pub fn inverse(pos: &[u16; 260]) -> [u16; 260]
    requires { (i : ℕ) → i < 260 → nth pos.now i < 260 }
    ensures { result ≡ bit_of pos.now }
{
    let mut bit = [0u16; 260];
    for (i, p) in pos.iter().enumerate() {
        bit[*p as usize] = i as u16;
    }
    bit
}
