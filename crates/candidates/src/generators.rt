// What each alternative adds to a word.
ghost use Rattle.std.specs.Prelude.{◌≡◌, ℕ, ◌+◌, ◌*◌, ◌<◌, ◌≤◌, length, replicate};
ghost use Rattle.lists.specs.Entry.{nth};
ghost use Rattle.lists.specs.Laid.{laid};
ghost use Rattle.words.specs.EncoderParts.{EncoderParts};
ghost use Rattle.candidates.specs.GeneratorRows.{column, row_of, support, Generators};

use field::multiples::Multiples;

// Slot s at the value d, and the parity symbols by its column of the table: what `encode` makes of d at slot s alone, without the products by 0. No plainer
// by a `Sound`, here and below: any encoder's parts will do, and a `Sound` would ask more.
fn column(
    r: usize,
    k: usize,
    parity: &[u16],
    info: &[u16],
    a: &[u8],
    s: usize,
    d: u8,
    row: &mut [u8],
)
    requires { (EncoderParts (length row.old) r k parity.now info.now a.now) × (s < k) × (row.old ≡ replicate (length row.old) 0) }
    ensures { row.new ≡ column (length row.old) r k parity.now info.now a.now s d }
{
    let p = info[s] as usize;
    row[p] = d;
    let multiples = Multiples::of(d);
    for (i, q) in parity[..r].iter().enumerate() {
        row[*q as usize] = multiples.times(a[i * k + s]);
    }
}

// The positions where a row is not 0, ascending, to the front of `places`, which is lent: so their count is answered.
fn list_support(row: &[u8], places: &mut [u8]) -> usize
    requires { (length row.now ≤ 256) × (length row.now ≤ length places.old) }
    ensures value { result ≡ length (support row.now) }
    ensures places_after { places.new ≡ laid (support row.now) places.old }
{
    let mut count = 0;
    for (v, x) in row.iter().enumerate() {
        if *x != 0 {
            places[count] = v as u8;
            count += 1;
        }
    }
    count
}

// One for each of the slots, in rows of `h`, which is 0 everywhere before, with its support.
pub fn generators(
    n: usize,
    r: usize,
    k: usize,
    parity: &[u16],
    info: &[u16],
    a: &[u8],
    slots: &[u8],
    differences: &[u8],
    counts: &mut [u16],
    h: &mut [u8],
)
    requires encoder_parts { (EncoderParts n r k parity.now info.now a.now) × (n ≤ 256) × (h.old ≡ replicate 65536 0) }
    requires slots_len_bound { (length slots.now ≤ 16) × (length counts.old ≡ 16) × ((j : ℕ) → j < length slots.now → nth slots.now j < k) }
    requires k_in_bounds { (k ≤ length differences.now) × ((t : ℕ) → t < k → nth differences.now t < 32) }
    ensures { Generators n (length slots.now)
        (λ j. column n r k parity.now info.now a.now (nth slots.now j) (nth differences.now (nth slots.now j)))
        counts.new h.new }
{
    for (j, slot) in slots.iter().enumerate() {
        let s = *slot as usize;
        let at = j * 256;
        let to = at + n;
        column(r, k, parity, info, a, s, differences[s], &mut h[at..to]);
        let (rows, places) = h.split_at_mut((j + 16) * 256);
        counts[j] = list_support(&rows[at..to], places) as u16;
    }
}
