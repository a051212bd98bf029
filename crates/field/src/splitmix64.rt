// SplitMix64, the generator of graphs and coefficients.
ghost use Rattle.std.specs.Prelude.{◌≡◌, length};
ghost use Rattle.field.specs.SplitMix64.{draw, next, after, drawn};

use crate::wrapping::wrapping_mul;

#[derive(Clone, Copy, Debug, PartialEq, Eq)]
pub struct SplitMix64 {
    pub state: u64,
}

impl SplitMix64 {
    // The state steps on, and its output is drawn.
    #[tactic(auto, unfolding(crate::specs::SplitMix64::draw, crate::specs::SplitMix64::output, crate::specs::SplitMix64::next, crate::specs::SplitMix64::xor_shifted, crate::specs::SplitMix64::times))]
    pub fn draw(&mut self) -> u64
        ensures value { result ≡ draw self.old.state }
        ensures state_value { self.new.state ≡ next self.old.state }
    {
        let state = self.state.wrapping_add(0x9E37_79B9_7F4A_7C15);
        self.state = state;
        let y = wrapping_mul(state ^ (state >> 30), 0xBF58_476D_1CE4_E5B9);
        let z = wrapping_mul(y ^ (y >> 27), 0x94D0_49BB_1331_11EB);
        z ^ (z >> 31)
    }

    // Fills `out` with draws in order.
    pub fn draws(&mut self, out: &mut [u64])
        ensures state_value { self.new.state ≡ after (length out.old) self.old.state }
        ensures out_after { out.new ≡ drawn (length out.old) self.old.state }
    {
        for place in out.iter_mut() {
            *place = self.draw();
        }
    }
}
