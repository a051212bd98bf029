// The code of a rate for an information set, where nothing turns the call down.
ghost use Rattle.std.specs.Prelude.{◌≡◌, ℕ, ◌<◌, ◌≤◌, map, pos, length};
ghost use Rattle.lists.specs.Entry.{nth};
ghost use Rattle.graph.specs.Parts.{Parts, lent};
ghost use Rattle.graph.specs.New.{lent_work};
ghost use Rattle.graph.specs.Buildable.{PartsFit, WorkFits};
ghost use Rattle.lent.specs.Sound.{IsSound};
ghost use Rattle.peeling.specs.Best.{is_last};
ghost use Rattle.peeling.specs.WithPeeledInfo.{order_of, code_in, parts_in};
ghost use Rattle.rates.specs.Rate.{IsRate};
ghost use Rattle.rates.specs.RateCode.{rate_code};

use crate::{InfoSet, Rate, degrees};
use graph::{Code, build};
use peeling::best::Tie;
use peeling::code::peeled;

// The same code in the order that peeling gives, the degrees being the preferences. The C interface, here and below: the parts are lent flat, each by itself.
fn peel(
    tie: Tie,
    code: Code,
    degrees: &[usize],
    var: &[u16],
    coef: &[u8],
    row: &[u16],
    start: &[u16],
    col: &[u16],
    order: &mut [u16],
    parity: &mut [u16],
    info: &mut [u16],
    a: &mut [u8],
    h: &mut [u8],
) -> Code
    requires sound { IsSound code (lent var.now coef.now row.now start.now col.now order.old parity.old info.old a.old) }
    requires lengths { (length degrees.now ≡ code.n) × (length h.old ≡ 65536) }
    requires low { (v : ℕ) → v < length degrees.now → nth degrees.now v ≤ 256 }
    ensures value { let given = lent var.now coef.now row.now start.now col.now order.old parity.old info.old a.old in
        result ≡ code_in code given (order_of (is_last tie) code given (map (λ d. pos d) degrees.now)) }
    ensures code_after { let given = lent var.now coef.now row.now start.now col.now order.old parity.old info.old a.old in
        ◌≡◌ {A = Parts} (lent var.now coef.now row.now start.now col.now order.new parity.new info.new a.new) (parts_in code given (order_of (is_last tie) code given (map (λ d. pos d) degrees.now))) }
{
    // A project rule, no heap: room for 256 preferences.
    let mut prefer = [0i64; 256];
    let used = &mut prefer[..degrees.len()];
    degrees::prefer(degrees, used);
    peeled(
        tie, code, var, coef, row, start, col, order, parity, info, a, used, h,
    )
}

// chk, load, own and deg are work parts; what they hold before does not matter.
pub fn build(
    rate: Rate,
    set: InfoSet,
    var: &mut [u16],
    coef: &mut [u8],
    row: &mut [u16],
    start: &mut [u16],
    col: &mut [u16],
    order: &mut [u16],
    parity: &mut [u16],
    info: &mut [u16],
    a: &mut [u8],
    chk: &mut [u8],
    load: &mut [u16],
    own: &mut [u8],
    deg: &mut [u16],
) -> Code
    requires is_rate { IsRate rate }
    requires parts_fit { PartsFit (lent var.old coef.old row.old start.old col.old order.old parity.old info.old a.old) }
    requires work_fits { WorkFits (lent_work chk.old load.old own.old deg.old) }
    ensures value { result ≡ (rate_code rate set).code }
    ensures code_after { ◌≡◌ {A = Parts} (lent var.new coef.new row.new start.new col.new order.new parity.new info.new a.new) (rate_code rate set).parts }
{
    // A project rule, no heap: room for 256 degrees.
    let mut room = [0usize; 256];
    let degrees = &mut room[..rate.n];
    degrees::lay(rate, degrees);
    let code = build::build(
        rate.n,
        rate.n - 52,
        rate.seed,
        degrees,
        var,
        coef,
        row,
        start,
        col,
        order,
        parity,
        info,
        a,
        chk,
        load,
        own,
        deg,
    );
    match set {
        InfoSet::Echelon => code,
        InfoSet::Peeled => peel(
            Tie::Last,
            code,
            degrees,
            var,
            coef,
            row,
            start,
            col,
            order,
            parity,
            info,
            a,
            chk,
        ),
    }
}
