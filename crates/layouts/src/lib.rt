// The layouts of a frame: how its 256 bits, with four padding bits, become the 52 information symbols of a code, and back. Nothing here knows a code: of it a layout
// takes the degrees of the 52 information slots.
#![tactic(auto)]

ghost use Rattle.std.specs.Prelude.{◌≡◌, not, eqb, length};
ghost use Rattle.std.specs.List.{list_any};
ghost use Rattle.layouts.specs.Promise.{Promised};
ghost use Rattle.layouts.specs.Symbols.{padding_used};

use std::marker::Model;

mod maps;
pub mod packing;
mod slots;
mod spread;
mod symbols;
mod variable;

// How the 260 padded bits are packed, and which slots the packed symbols take.
#[derive(Clone, Copy, Debug, PartialEq, Eq)]
pub enum BitMap {
    // Bits and slots in order.
    Plain,
    // Bits in order, the symbols of the check-in's variable bits in the strongest slots.
    Heavy,
    // Bits spread over all symbols, slots in order.
    Spread,
    // The check-in's variable bits dealt over the slots of a degree above 2, slots in order.
    SpreadHeavy,
}

// The layout of a map: each position once, the inverse, and each slot once.
#[derive(Drop)]
pub struct Tables {
    // The packed position of each padded bit.
    pub pos: [u16; 260],
    // The padded bit at each packed position.
    pub bit: [u16; 260],
    // The information slot of each packed symbol.
    pub slot: [u8; 52],
}

impl Model for Tables {
    ghost use Rattle.layouts.specs.Layout.{Layout, IsLayout};

    ghost Value = { Layout };

    ghost view = { λ t. record { pos = t.pos; bit = t.bit; slot = t.slot } };

    ghost invariant = { λ t. IsLayout (record { pos = t.pos; bit = t.bit; slot = t.slot }) };
}

impl Tables {
    ghost use Rattle.layouts.specs.Maps.{layout_of};
    ghost use Rattle.layouts.specs.Symbols.{symbols_of, padded_bits};

    // By the degrees of the 52 information slots.
    pub fn of(map: BitMap, degrees: &[usize]) -> Tables
        requires { length degrees.now ≡ 52 }
        ensures { result ≡ layout_of map degrees.now }
    {
        let pos = maps::positions(map, degrees);
        let bit = maps::inverse(&pos);
        let slot = maps::slots(map, degrees);
        Tables { pos, bit, slot }
    }

    // The symbols of the 52 slots, of a frame's bits; of each bit the lowest counts.
    pub fn symbols_of(&self, bits: &[u8]) -> [u8; 52]
        requires { length bits.now ≡ 256 }
        ensures { result ≡ symbols_of self.now bits.now }
    {
        let packed = symbols::pack(&self.pos, bits);
        let mut syms = [0u8; 52];
        packing::bits_to_syms(&packed, &mut syms);
        symbols::to_slots(&self.slot, &syms)
    }

    // The padded bits of the symbols of the 52 slots: a frame's own 256, and then the padding.
    pub fn padded_bits(&self, syms: &[u8]) -> [u8; 260]
        requires { length syms.now ≡ 52 }
        ensures { result ≡ padded_bits self.now syms.now }
    {
        let own = symbols::from_slots(&self.slot, syms);
        let mut packed = [0u8; 260];
        packing::syms_to_bits(&own, &mut packed);
        symbols::unpack(&self.pos, &packed)
    }
}

fn is_used(padding: &[u8]) -> bool
    ensures { result ≡ list_any (λ bit. not (eqb bit 0)) padding.now }
{
    padding.iter().any(|bit| *bit != 0)
}

// Whether one of the four padding bits is not 0.
#[tactic(auto, unfolding(crate::specs::Symbols::padding_used))]
pub fn padding_used(padded: &[u8; 260]) -> bool
    ensures { result ≡ padding_used padded.now }
{
    is_used(&padded[256..])
}

// What is promised of layouts: a promise alone, and no code.
pub fn promise()
    ensures { Promised }
{}
