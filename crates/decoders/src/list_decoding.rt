// List decoding on a sound code.
ghost use Rattle.std.specs.Prelude.{◌≡◌, ◌*◌, ◌≤◌, length, replicate};
ghost use Rattle.lent.specs.LentCode.{graph_of};
ghost use Rattle.candidates.specs.ListWord.{list_word};

use candidates::alternatives::alternatives;
use candidates::generators::generators;
use candidates::gray::try_all;
use candidates::least_sure::least_sure;
use lent::Sound;
use words::encoder::encode;

// The best candidate, to `word`. The generators stand in `h`, which is 0 everywhere before.
pub fn run(
    code: &Sound,
    metrics: &[f32],
    posteriors: &[f32],
    width: usize,
    word: &mut [u8],
    h: &mut [u8],
)
    requires metrics_long { length metrics.now ≡ code.now.code.n * 32 }
    requires posteriors_long { length posteriors.now ≡ code.now.code.n * 32 }
    requires word_long { length word.old ≡ code.now.code.n }
    requires blank { h.old ≡ replicate 65536 0 }
    requires width_small { width ≤ 16 }
    ensures { word.new ≡ list_word (graph_of code.now) code.now.parts.order posteriors.now metrics.now width }
{
    let lent = code.lent;
    let n = lent.numbers.n;
    let r = lent.numbers.rank;
    let k = n - r;
    let w = width.min(k);
    // A project rule, no heap, here and below: room for 256 slots, of which a code has k, and for 16 alternatives.
    let mut syms = [0u8; 256];
    let mut differences = [0u8; 256];
    let mut margins = [0.0f32; 256];
    alternatives(
        &lent.info[..k],
        posteriors,
        &mut syms,
        &mut differences,
        &mut margins,
    );
    let mut slots = [0u8; 16];
    least_sure(k, &margins, &mut slots[..w]);
    encode(r, k, lent.parity, lent.info, lent.a, &syms[..k], word);
    let mut counts = [0u16; 16];
    generators(
        n,
        r,
        k,
        lent.parity,
        lent.info,
        lent.a,
        &slots[..w],
        &differences,
        &mut counts,
        h,
    );
    let mut current = [0u8; 256];
    try_all(w, metrics, &counts, h, &mut current[..n], word);
}
