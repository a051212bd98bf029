// Bits to symbols, five to a symbol and most significant first, and back.
ghost use Rattle.std.specs.Prelude.{◌≡◌, ◌+◌, ◌*◌, ◌/◌, ◌%◌, ◌<◌, ◌≤◌, length};
ghost use Rattle.lists.specs.Entry.{nth};
ghost use Rattle.layouts.specs.Packing.{symbol_at, bits_to_syms, bit_at, syms_to_bits};

// The lowest bit of entry i, and 0 past the end.
fn low(b: &[u8], i: usize) -> u8
    ensures { result ≡ nth b.now i % 2 }
{
    b.get(i).copied().unwrap_or(0) % 2
}

// Symbol j, of five bits.
fn symbol_at(b: &[u8], j: usize) -> u8
    requires { j * 5 ≤ length b.now }
    ensures { result ≡ symbol_at b.now j }
{
    let from = j * 5;
    let mut a = 0u8;
    for i in 0..5usize {
        a = a * 2 + low(b, from + i);
    }
    a
}

// Bits that are missing in the last symbol are 0.
pub fn bits_to_syms(b: &[u8], out: &mut [u8])
    requires { length out.old ≡ (length b.now + 4) / 5 }
    ensures { out.new ≡ bits_to_syms b.now }
{
    for (j, symbol) in out.iter_mut().enumerate() {
        *symbol = symbol_at(b, j);
    }
}

// Bit k of a symbol's five.
#[tactic(auto, unfolding(crate::specs::Packing::bit_at))]
fn bit_at(x: u8, k: usize) -> u8
    requires { k < 5 }
    ensures { result ≡ bit_at x k }
{
    (x >> (4 - k)) % 2
}

pub fn syms_to_bits(syms: &[u8], out: &mut [u8])
    requires { length out.old ≡ 5 * length syms.now }
    ensures { out.new ≡ syms_to_bits syms.now }
{
    for (p, bit) in out.iter_mut().enumerate() {
        *bit = bit_at(syms[p / 5], p % 5);
    }
}
