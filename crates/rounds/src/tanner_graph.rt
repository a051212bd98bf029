// A code's Tanner graph, lent: what rounds are made on.
use lent::Sound;
use std::marker::Model;

#[derive(Drop)]
pub struct TannerGraph<'a> {
    pub n: usize,
    pub m: usize,
    pub edges: usize,
    pub var: &'a [u16],
    pub coef: &'a [u8],
    pub row: &'a [u16],
    pub start: &'a [u16],
    pub col: &'a [u16],
}

impl<'a> Model for TannerGraph<'a> {
    ghost use Rattle.rounds.specs.Tanner.{Tanner};
    ghost use Rattle.rounds.specs.Ready.{Ready};

    ghost Value = { Tanner };

    ghost view = { λ g. record { n = g.n; m = g.m; edges = g.edges; var = g.var.now; coef = g.coef.now; row = g.row.now; start = g.start.now; col = g.col.now } };

    ghost invariant = { λ g. Ready (record { n = g.n; m = g.m; edges = g.edges; var = g.var.now; coef = g.coef.now; row = g.row.now; start = g.start.now; col = g.col.now }) };
}

impl<'a> TannerGraph<'a> {
    ghost use Rattle.std.specs.Prelude.{◌≡◌};
    ghost use Rattle.rounds.specs.Tanner.{tanner_of};

    // A code's own.
    pub fn of(code: &Sound<'_, 'a>) -> TannerGraph<'a>
        ensures { result ≡ tanner_of code.now }
    {
        let lent = code.lent;
        TannerGraph {
            n: lent.numbers.n,
            m: lent.numbers.m,
            edges: lent.numbers.edges,
            var: lent.var,
            coef: lent.coef,
            row: lent.row,
            start: lent.start,
            col: lent.col,
        }
    }
}
