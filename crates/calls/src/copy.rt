// A part copied to another. By a loop, since by the library's `copy_from_slice` an archive would need `memmove` from outside.
ghost use Rattle.std.specs.Prelude.{◌≡◌, length};

pub fn copy<T: Copy>(from: &[T], to: &mut [T])
    requires { length to.old ≡ length from.now }
    ensures { to.new ≡ from.now }
{
    for (k, place) in to.iter_mut().enumerate() {
        *place = from[k];
    }
}
