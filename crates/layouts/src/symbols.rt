// A frame's bits to the symbols of the information slots, and back, by the tables of a layout.
ghost use Rattle.std.specs.Prelude.{◌≡◌, ℕ, ◌%◌, ◌<◌, length, replicate};
ghost use Rattle.lists.specs.Entry.{nth};
ghost use Rattle.lists.specs.Placed.{placed};
ghost use Rattle.lists.specs.Values.{values};

// The packed bits: of each bit the lowest, and 0 at the padding's places.
pub fn pack(pos: &[u16; 260], bits: &[u8]) -> [u8; 260]
    requires { (length bits.now ≡ 256) × ((i : ℕ) → i < 260 → nth pos.now i < 260) }
    ensures { result ≡ placed 256 (nth pos.now) (λ i. nth bits.now i % 2) (replicate 260 0) }
{
    let mut packed = [0u8; 260];
    for (i, bit) in bits.iter().enumerate() {
        packed[pos[i] as usize] = *bit % 2;
    }
    packed
}

// Each symbol to its slot.
pub fn to_slots(slot: &[u8; 52], syms: &[u8; 52]) -> [u8; 52]
    requires { (j : ℕ) → j < 52 → nth slot.now j < 52 }
    ensures { result ≡ placed 52 (nth slot.now) (nth syms.now) (replicate 52 0) }
{
    let mut out = [0u8; 52];
    for (j, s) in slot.iter().enumerate() {
        out[*s as usize] = syms[j];
    }
    out
}

// The symbols that stand in the slots.
pub fn from_slots(slot: &[u8; 52], syms: &[u8]) -> [u8; 52]
    requires { (length syms.now ≡ 52) × ((j : ℕ) → j < 52 → nth slot.now j < 52) }
    ensures { result ≡ values 52 (λ j. nth syms.now (nth slot.now j)) }
{
    let mut out = [0u8; 52];
    for (j, symbol) in out.iter_mut().enumerate() {
        *symbol = syms[slot[j] as usize];
    }
    out
}

// The padded bits, in their own order.
pub fn unpack(pos: &[u16; 260], packed: &[u8; 260]) -> [u8; 260]
    requires { (i : ℕ) → i < 260 → nth pos.now i < 260 }
    ensures { result ≡ values 260 (λ i. nth packed.now (nth pos.now i)) }
{
    let mut padded = [0u8; 260];
    for (i, bit) in padded.iter_mut().enumerate() {
        *bit = packed[pos[i] as usize];
    }
    padded
}
