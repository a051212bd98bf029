// The calls that make a code, each made with the arguments of a case, as the head of data/graph.txt says.
ghost use Rattle.std.specs.Prelude.{◌≡◌, ◌∷◌, [], IfOk, map, replicate, slice_index};
ghost use Rattle.lists.specs.Values.{values};
ghost use Rattle.calls.specs.Refusal.{first_of, answered, answer_number};
ghost use Rattle.calls.specs.Parts.{written};
ghost use Rattle.graph.specs.EvenDegrees.{even_degree, even_refusals};
ghost use Rattle.replay.specs.Answers.{number_found};
ghost use Rattle.replay.specs.Digest.{digest_of};
ghost use Rattle.replay.specs.Held.{held};

use crate::answers::{Answers, Found, WorkPart};
use crate::case::CaseError;
use crate::code::{Built, Code, MOST, Shape};
use crate::fields::Fields;
use calls::Refusal;
use std::alloc::{AllocError, Global};

// even_degrees N E NUMBER DEGREES
pub fn even_degrees(alloc: Global, fields: &mut Fields<'_>) -> Result<Answers, CaseError>
    ensures { let n = slice_index fields.old.rest.now 0 in let e = slice_index fields.old.rest.now 1 in
        let answer = answered (first_of (even_refusals n (replicate n 1))) (tt {0}) in
        IfOk result (λ r. map (λ f. f.ours) r.found.items ≡ answer_number answer ∷ digest_of (written answer (replicate n 1) (values n (even_degree n e))) ∷ []) }
{
    let n = fields.between(0, MOST)? as usize;
    let e = usize::try_from(fields.next()?)?;
    let mut degrees = vec![in alloc; 1usize; n]?;
    let answer = graph::even_degrees(n, e, &mut degrees);
    let found = [
        Found::number(answer),
        Found::digest("degrees", degrees.as_slice()),
    ];
    Ok(Answers::new(alloc, &found, &[])?)
}

// new CODE NUMBER EDGES RANK VAR COEF ROW START COL ORDER PARITY INFO A
pub fn new(alloc: Global, fields: &mut Fields<'_>) -> Result<Answers, CaseError> {
    let Built { answer, code, work } = Shape::read(fields)?.build(alloc)?;
    Ok(made(alloc, answer, &code, &work)?)
}

// The answers of a call that makes a code. Its numbers are 0 where it is turned down.
pub fn made(
    alloc: Global,
    answer: Result<graph::Code, Refusal>,
    code: &Code,
    work: &[WorkPart],
) -> Result<Answers, AllocError>
    ensures { let after = (held code.now).parts in
        IfOk result (λ r. map (λ f. f.ours) r.found.items ≡ answer_number answer ∷ number_found (λ c. c.edges) answer ∷ number_found (λ c. c.rank) answer
        ∷ digest_of after.var ∷ digest_of after.coef ∷ digest_of after.row ∷ digest_of after.start ∷ digest_of after.col
        ∷ digest_of after.order ∷ digest_of after.parity ∷ digest_of after.info ∷ digest_of after.a ∷ []) }
{
    let found = [
        Found::number(answer),
        Found::finding("count of edges", answer.map(|numbers| numbers.edges)),
        Found::finding("rank", answer),
        Found::digest("var", &code.var),
        Found::digest("coef", &code.coef),
        Found::digest("row", &code.row),
        Found::digest("start", &code.start),
        Found::digest("col", &code.col),
        Found::digest("order", &code.order),
        Found::digest("parity", &code.parity),
        Found::digest("info", &code.info),
        Found::digest("a", &code.a),
    ];
    Answers::new(alloc, &found, work)
}
