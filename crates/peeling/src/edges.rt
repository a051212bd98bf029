// What peeling reads of a code: its edges, grouped by check, and each variable's places among them.
ghost use Rattle.peeling.specs.Peelable.{Peelable};

#[derive(Drop)]
pub struct Edges<'a> {
    pub n: usize,
    pub m: usize,
    pub var: &'a [u16],
    pub row: &'a [u16],
    pub start: &'a [u16],
    pub col: &'a [u16],
    pub ghost peelable: { Peelable n m var.now row.now start.now col.now },
}

impl<'a> Edges<'a> {
    ghost use Rattle.std.specs.Prelude.{◌≡◌, ◌+◌, ◌<◌, ◌≤◌};
    ghost use Rattle.lists.specs.Entry.{nth};
    ghost use Rattle.peeling.specs.EdgeLists.{symbols, places};

    // The symbols of check c.
    pub fn symbols(&self, c: usize) -> &[u16]
        requires { c < self.now.m }
        ensures { result.now ≡ symbols self.now c }
    {
        &self.var[self.row[c] as usize..self.row[c + 1] as usize]
    }

    // The places of variable v's edges.
    pub fn places(&self, v: usize) -> &[u16]
        requires { v < self.now.n }
        ensures { result.now ≡ places self.now v }
    {
        &self.col[self.start[v] as usize..self.start[v + 1] as usize]
    }

    // The check of edge e: the last that starts at or before it.
    pub fn check_of(&self, e: usize) -> usize
        requires { e < nth self.now.row.now self.now.m }
        ensures { (result < self.now.m) × (nth self.now.row.now result ≤ e) × (e < nth self.now.row.now (result + 1)) }
    {
        self.row[..self.m].partition_point(|s| *s as usize <= e) - 1
    }
}
