// A lent code, and the one place that tells whether it is a code: every call on a lent code begins there.
#![tactic(auto)]

ghost use Rattle.std.specs.Prelude.{◌≡◌, ◌∷◌, [], length};
ghost use Rattle.calls.specs.Refusal.{first_of, answered};
ghost use Rattle.calls.specs.Parts.{worked};
ghost use Rattle.lent.specs.Malformed.{malformed};
ghost use Rattle.lent.specs.Misencoded.{misencoded};
ghost use Rattle.lent.specs.LentCode.{code_refusals};
ghost use Rattle.lent.specs.Sound.{Fits, IsAccepted};

use calls::Refusal;
use graph::{Code, refusals};
use std::marker::Model;

mod malformed;
mod misencoded;

// The numbers of a code and the nine parts in which it stands: a graph of edges grouped by check, each variable's places in that list, a column order, and the
// encoder that elimination gives for it. What is lent may be anything.
#[derive(Drop)]
pub struct Lent<'a> {
    pub numbers: Code,
    pub var: &'a [u16],
    pub coef: &'a [u8],
    pub row: &'a [u16],
    pub start: &'a [u16],
    pub col: &'a [u16],
    pub order: &'a [u16],
    pub parity: &'a [u16],
    pub info: &'a [u16],
    pub a: &'a [u8],
}

impl<'a> Model for Lent<'a> {
    ghost use Rattle.lent.specs.Held.{Held};

    ghost Value = { Held };

    ghost view = { λ l. record { code = l.numbers; parts = record { var = l.var.now; coef = l.coef.now; row = l.row.now; start = l.start.now; col = l.col.now; order = l.order.now; parity = l.parity.now; info = l.info.now; a = l.a.now } } };
}

// A lent code that refusals 2 to 7 pass.
#[derive(Drop)]
pub struct Sound<'s, 'a> {
    pub lent: &'s Lent<'a>,
}

impl<'s, 'a> Model for Sound<'s, 'a> {
    ghost use Rattle.lent.specs.Held.{Held};
    ghost use Rattle.lent.specs.Sound.{IsAccepted};

    ghost Value = { Held };

    ghost view = { λ s. s.lent.now };

    ghost invariant = { λ s. IsAccepted s.lent.now.code s.lent.now.parts };
}

impl<'a> Lent<'a> {
    // 6 and 7, of parts that have their lengths.
    fn tested(&self, h: &mut [u8], pivots: &mut [u16]) -> Result<(), Refusal>
        requires fits { Fits self.now.code self.now.parts }
        requires h_len { (length h.old ≡ 65536) × (length pivots.old ≡ 256) }
        ensures { result ≡ answered
            (first_of ((malformed self.now.code self.now.parts, Refusal.Malformed) ∷ (misencoded self.now.code self.now.parts, Refusal.Misencoded) ∷ [])) tt }
    {
        if malformed::malformed(self) {
            return Err(Refusal::Malformed);
        }
        if misencoded::misencoded(self, h, pivots) {
            return Err(Refusal::Misencoded);
        }
        Ok(())
    }

    // The same code as one that was tested. `h` and `pivots` are work parts; `rest` says whether a part of the call's own has a wrong length.
    // No plainer as one struct of the two: they are lent one by one, and a clause says of each what is left.
    pub fn accepted<'s>(
        &'s self,
        h: &mut [u8],
        pivots: &mut [u16],
        rest: bool,
    ) -> Result<Sound<'s, 'a>, Refusal>
        ensures answer { result ≡ answered (first_of (code_refusals self.now.code self.now.parts (length h.old) (length pivots.old) rest)) self.now }
        ensures h_after { h.new ≡ worked result 0 h.old }
        ensures pivots_after { pivots.new ≡ worked result 0 pivots.old }
    {
        let work = (h.len() != 65536) | ((pivots.len() != 256) | rest);
        let misfit = refusals::code_misfit(
            self.var.len(),
            self.coef.len(),
            self.row.len(),
            self.start.len(),
            self.col.len(),
            self.order.len(),
            self.parity.len(),
            self.info.len(),
            self.a.len(),
            work,
        );
        refusals::early(self.numbers.n, self.numbers.m, misfit)?;
        let tested = self.tested(h, pivots);
        h.fill(0);
        pivots.fill(0);
        tested?;
        Ok(Sound { lent: self })
    }

    // The same where a law says that the code passes: nothing is tested.
    pub fn known_sound<'s>(&'s self) -> Sound<'s, 'a>
        requires accepted { IsAccepted self.now.code self.now.parts }
        ensures { result ≡ self.now }
    {
        Sound { lent: self }
    }
}
