// The code of a case, in memory that its calls are lent.
ghost use Rattle.std.specs.Prelude.{◌≡◌, ◌-◌, ◌≤◌, ◌++◌, IfOk, OnErr, replicate, slice_index};

use crate::answers::WorkPart;
use crate::case::CaseError;
use crate::digest::WorkKind;
use crate::fields::Fields;
use calls::Refusal;
use lent::Lent;
use std::alloc::{AllocError, Global};
use std::num::TryFromIntError;

// One more than a call takes.
pub const MOST: u64 = 257;

// N M HEAVY DEGREE LIGHT SEED: the first HEAVY of N variables have DEGREE, the others LIGHT.
#[derive(Clone, Copy)]
pub struct Shape {
    pub n: usize,
    pub m: usize,
    pub heavy: usize,
    pub degree: usize,
    pub light: usize,
    pub seed: u64,
    ghost n_in_range: { n ≤ 257 },
    ghost heavy_le_n: { heavy ≤ n },
}

// PART INDEX VALUE: after the build, entry INDEX of a part becomes VALUE.
#[derive(Clone, Copy)]
pub struct Damage {
    pub part: u64,
    pub index: usize,
    pub value: u64,
}

#[derive(Drop)]
pub struct Code {
    pub shape: Shape,
    pub numbers: graph::Code,
    pub var: Vec<u16>,
    pub coef: Vec<u8>,
    pub row: Vec<u16>,
    pub start: Vec<u16>,
    pub col: Vec<u16>,
    pub order: Vec<u16>,
    pub parity: Vec<u16>,
    pub info: Vec<u16>,
    pub a: Vec<u8>,
}

// What `graph::new` answers and leaves.
#[derive(Drop)]
pub struct Built {
    pub answer: Result<graph::Code, Refusal>,
    pub code: Code,
    pub work: [WorkPart; 4],
}

impl Shape {
    // Of a code that no line shapes.
    pub const NONE: Shape = Shape {
        n: 0,
        m: 0,
        heavy: 0,
        degree: 0,
        light: 0,
        seed: 0,
    };

    pub fn read(fields: &mut Fields<'_>) -> Result<Self, CaseError>
        ensures sizes { let given = fields.old.rest.now in
            IfOk result (λ s. (s.n ≡ slice_index given 0) × (s.m ≡ slice_index given 1)) }
        ensures degrees { let given = fields.old.rest.now in
            IfOk result (λ s. (s.heavy ≡ slice_index given 2) × (s.degree ≡ slice_index given 3) × (s.light ≡ slice_index given 4)) }
        ensures seed { IfOk result (λ s. s.seed ≡ slice_index fields.old.rest.now 5) }
    {
        let n = fields.between(0, MOST)? as usize;
        let m = fields.between(0, MOST)? as usize;
        let heavy = fields.between(0, n as u64)? as usize;
        Ok(Shape {
            n,
            m,
            heavy,
            degree: usize::try_from(fields.next()?)?,
            light: usize::try_from(fields.next()?)?,
            seed: fields.next()?,
        })
    }

    fn degrees(&self, alloc: Global) -> Result<Vec<usize>, AllocError>
        ensures { IfOk result (λ v. v.items ≡ replicate self.now.heavy self.now.degree ++ replicate (self.now.n - self.now.heavy) self.now.light) }
    {
        let heavy = std::iter::repeat_n(self.degree, self.heavy);
        let light = std::iter::repeat_n(self.light, self.n - self.heavy);
        heavy.chain(light).collect(alloc)
    }

    // Before the call every entry of every part is 1.
    pub fn build(&self, alloc: Global) -> Result<Built, AllocError> {
        let degrees = self.degrees(alloc)?;
        let mut code = Code::blank(alloc, *self)?;
        let mut chk = vec![in alloc; 1u8; 65536]?;
        let mut load = vec![in alloc; 1u16; 256]?;
        let mut own = vec![in alloc; 1u8; 65536]?;
        let mut deg = vec![in alloc; 1u16; 256]?;
        let answer = graph::new(
            self.n,
            self.m,
            self.seed,
            &degrees,
            &mut code.var,
            &mut code.coef,
            &mut code.row,
            &mut code.start,
            &mut code.col,
            &mut code.order,
            &mut code.parity,
            &mut code.info,
            &mut code.a,
            &mut chk,
            &mut load,
            &mut own,
            &mut deg,
        );
        if let Ok(numbers) = answer {
            code.numbers = numbers;
        }
        let work = [
            WorkPart::new("chk", WorkKind::Large, &chk),
            WorkPart::new("load", WorkKind::Small, &load),
            WorkPart::new("own", WorkKind::Large, &own),
            WorkPart::new("deg", WorkKind::Small, &deg),
        ];
        Ok(Built { answer, code, work })
    }

    // A code that `graph::new` refuses is not understood.
    pub fn code(&self, alloc: Global) -> Result<Code, CaseError> {
        let Built { answer, code, .. } = self.build(alloc)?;
        match answer {
            Ok(_) => Ok(code),
            Err(_) => Err(CaseError::NotUnderstood),
        }
    }
}

impl Damage {
    pub fn read(fields: &mut Fields<'_>) -> Result<Self, CaseError>
        ensures { let given = fields.old.rest.now in
            IfOk result (λ d. (d.part ≡ slice_index given 0) × (d.index ≡ slice_index given 1) × (d.value ≡ slice_index given 2)) }
    {
        Ok(Damage {
            part: fields.next()?,
            index: usize::try_from(fields.next()?)?,
            value: fields.next()?,
        })
    }
}

impl Code {
    ghost use Rattle.replay.specs.Held.{held};

    // No code, in parts whose every entry is 1.
    pub fn blank(alloc: Global, shape: Shape) -> Result<Self, AllocError> {
        Ok(Code {
            shape,
            numbers: graph::Code {
                n: 0,
                m: 0,
                edges: 0,
                rank: 0,
            },
            var: vec![in alloc; 1; 512]?,
            coef: vec![in alloc; 1; 512]?,
            row: vec![in alloc; 1; 257]?,
            start: vec![in alloc; 1; 257]?,
            col: vec![in alloc; 1; 512]?,
            order: vec![in alloc; 1; 256]?,
            parity: vec![in alloc; 1; 256]?,
            info: vec![in alloc; 1; 256]?,
            a: vec![in alloc; 1; 16384]?,
        })
    }

    pub fn lend(&self) -> Lent<'_>
        ensures { result ≡ held self.now }
    {
        Lent {
            numbers: self.numbers,
            var: &self.var,
            coef: &self.coef,
            row: &self.row,
            start: &self.start,
            col: &self.col,
            order: &self.order,
            parity: &self.parity,
            info: &self.info,
            a: &self.a,
        }
    }

    // The damage is not understood where the part has no such entry, or the entry cannot hold the value. No plainer as an enum of parts: the number is the list's, and this
    // is the one place that reads it.
    pub fn damage(&mut self, damage: Damage) -> Result<(), CaseError> {
        let Damage { part, index, value } = damage;
        match part {
            0 if index == 0 && value == 0 => {}
            1 => put(&mut self.var, index, value)?,
            2 => put(&mut self.coef, index, value)?,
            3 => put(&mut self.row, index, value)?,
            4 => put(&mut self.start, index, value)?,
            5 => put(&mut self.col, index, value)?,
            6 => put(&mut self.order, index, value)?,
            7 => put(&mut self.parity, index, value)?,
            8 => put(&mut self.info, index, value)?,
            9 => put(&mut self.a, index, value)?,
            10 if index == 0 => self.numbers.n = usize::try_from(value)?,
            11 if index == 0 => self.numbers.m = usize::try_from(value)?,
            12 if index == 0 => self.numbers.edges = usize::try_from(value)?,
            13 if index == 0 => self.numbers.rank = usize::try_from(value)?,
            _ => return Err(CaseError::NotUnderstood),
        }
        Ok(())
    }
}

fn put<T: Copy + TryFrom<u64, Error = TryFromIntError>>(
    part: &mut [T],
    index: usize,
    value: u64,
) -> Result<(), CaseError>
    ensures { OnErr result (part.new ≡ part.old) }
{
    let entry = T::try_from(value)?;
    if index >= part.len() {
        return Err(CaseError::NotUnderstood);
    }
    part[index] = entry;
    Ok(())
}
