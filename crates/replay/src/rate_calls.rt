// The calls on rates, as the head of data/rates.txt says. Before a call every entry of its output and work parts is 1.
ghost use Rattle.std.specs.Prelude.{◌≡◌, ◌∷◌, [], Result, IfOk, map, replicate};
ghost use Rattle.calls.specs.declared.Refusal.{Refusal};
ghost use Rattle.calls.specs.Refusal.{first_of, answered, answer_number};
ghost use Rattle.calls.specs.Parts.{written};
ghost use Rattle.graph.specs.declared.Code.{Code as Numbers};
ghost use Rattle.graph.specs.Parts.{Parts};
ghost use Rattle.rates.specs.Rate.{rate_of, rate_degrees};
ghost use Rattle.rates.specs.RateCode.{set_of, rate_code};
ghost use Rattle.rates.specs.NFor.{rate_refusals};
ghost use Rattle.rates.specs.DegreesFor.{degrees_for_refusals};
ghost use Rattle.rates.specs.CodeAt.{code_at_refusals};
ghost use Rattle.replay.specs.Answers.{number_found};
ghost use Rattle.replay.specs.Digest.{digest_of};
ghost use Rattle.replay.specs.Held.{held};

use crate::answers::{Answers, Found, WorkPart};
use crate::code::Code;
use crate::digest::WorkKind;
use crate::graph_calls::made;
use std::alloc::{AllocError, Global};

// n_for RATE NUMBER N
pub fn n_for(alloc: Global, rate: usize) -> Result<Answers, AllocError>
    ensures { let answer = answered (first_of (rate_refusals rate)) (rate_of rate).n in
        IfOk result (λ r. map (λ f. f.ours) r.found.items ≡ answer_number answer ∷ number_found (λ x. x) answer ∷ []) }
{
    let answer = rates::n_for(rate);
    let found = [Found::number(answer), Found::finding("n", answer)];
    Answers::new(alloc, &found, &[])
}

// degrees_for RATE LENGTH NUMBER DEGREES
pub fn degrees_for(alloc: Global, rate: usize, room: usize) -> Result<Answers, AllocError>
    ensures { let answer = answered (first_of (degrees_for_refusals rate room)) (tt {0}) in
        IfOk result (λ r. map (λ f. f.ours) r.found.items ≡ answer_number answer ∷ digest_of (written answer (replicate room 1) (rate_degrees (rate_of rate))) ∷ []) }
{
    let mut degrees = vec![in alloc; 1usize; room]?;
    let answer = rates::degrees_for(rate, &mut degrees);
    let found = [
        Found::number(answer),
        Found::digest("degrees", degrees.as_slice()),
    ];
    Answers::new(alloc, &found, &[])
}

// code_at RATE SET NUMBER EDGES RANK VAR COEF ROW START COL ORDER PARITY INFO A
pub fn code_at(
    alloc: Global,
    mut code: Code,
    rate: usize,
    set: usize,
) -> Result<Answers, AllocError>
    ensures { let before = (held code).parts in let l = rate_code (rate_of rate) (set_of set) in
        (answer : Result Numbers Refusal) → answer ≡ answered (first_of (code_at_refusals rate set before 512 131072)) l.code →
        (after : Parts) → after ≡ written answer before l.parts →
        IfOk result (λ r. map (λ f. f.ours) r.found.items ≡ answer_number answer ∷ number_found (λ c. c.edges) answer ∷ number_found (λ c. c.rank) answer
        ∷ digest_of after.var ∷ digest_of after.coef ∷ digest_of after.row ∷ digest_of after.start ∷ digest_of after.col
        ∷ digest_of after.order ∷ digest_of after.parity ∷ digest_of after.info ∷ digest_of after.a ∷ []) }
{
    let mut words = vec![in alloc; 1u16; 512]?;
    let mut bytes = vec![in alloc; 1u8; 131072]?;
    let answer = rates::code_at(
        rate,
        set,
        &mut code.var,
        &mut code.coef,
        &mut code.row,
        &mut code.start,
        &mut code.col,
        &mut code.order,
        &mut code.parity,
        &mut code.info,
        &mut code.a,
        &mut words,
        &mut bytes,
    );
    let work = [
        WorkPart::new("words", WorkKind::CodeWords, &words),
        WorkPart::new("bytes", WorkKind::CodeBytes, &bytes),
    ];
    // No plainer without `Ok` and `?`: no proof of the clause is found over the result as it is.
    Ok(made(alloc, answer, &code, &work)?)
}
