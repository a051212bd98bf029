// Degrees of variables.
ghost use Rattle.std.specs.Prelude.{◌≡◌, length};
ghost use Rattle.lists.specs.Values.{values};
ghost use Rattle.graph.specs.EvenDegrees.{even_degree};

// e edges over as many variables as the part has entries: e / n each, and one more for the first e % n. The division stands in the loop, since there is
// nothing to divide by where there are no variables.
pub fn spread(e: usize, degrees: &mut [usize])
    ensures { degrees.new ≡ values (length degrees.old) (even_degree (length degrees.old) e) }
{
    let n = degrees.len();
    for (v, degree) in degrees.iter_mut().enumerate() {
        *degree = if v < e % n { e / n + 1 } else { e / n };
    }
}
