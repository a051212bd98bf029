// A list in each of 256 rows, on two lent slices: row r has counts[r] entries, from cells[r * 256] on.
ghost use Rattle.growth.specs.IsTable.{IsTable};

#[derive(Drop)]
pub struct Table<'a> {
    pub cells: &'a mut [u8],
    pub counts: &'a mut [u16],
    pub ghost table: { IsTable cells.now counts.now },
}

impl<'a> Table<'a> {
    ghost use Rattle.std.specs.Prelude.{◌≡◌, ◌<◌, length};
    ghost use Rattle.growth.specs.Adjacency.{pushed};
    ghost use Rattle.growth.specs.Rows.{rows_of, SameSlices};

    // The entries of row r.
    pub fn row(&self, r: usize) -> &[u8]
        requires { r < 256 }
        ensures { result.now ≡ rows_of self.now r }
    {
        let from = r * 256;
        &self.cells[from..from + self.counts[r] as usize]
    }

    // x at the end of row r.
    pub fn push(&mut self, r: usize, x: u8)
        requires { (r < 256) × (length (rows_of self.old r) < 256) }
        ensures rows { rows_of self.new ≡ pushed (rows_of self.old) r x }
        ensures slices { SameSlices self.old self.new }
    {
        let k = self.counts[r] as usize;
        self.cells[r * 256 + k] = x;
        self.counts[r] = (k + 1) as u16;
    }
}
