// A frame's layout: an information set and a map; and the tables that a map makes for a code.
ghost use Rattle.std.specs.Prelude.{◌≡◌, ◌≤◌};
ghost use Rattle.words.specs.K.{k_of};
ghost use Rattle.frames.specs.FrameLayout.{map_of};
ghost use Rattle.frames.specs.SlotSymbols.{layout_in};

use calls::Refusal;
use layouts::{BitMap, Tables};
use lent::Sound;
use rates::InfoSet;
use words::checks::degree;

// A map by its number, 0 to 3.
fn map_of(number: usize) -> BitMap
    ensures { result ≡ map_of number }
{
    match number {
        0 => BitMap::Plain,
        1 => BitMap::Heavy,
        2 => BitMap::Spread,
        _ => BitMap::SpreadHeavy,
    }
}

#[derive(Clone, Copy, Debug, PartialEq, Eq)]
pub struct FrameLayout {
    pub set: InfoSet,
    pub map: BitMap,
}

impl FrameLayout {
    ghost use Rattle.std.specs.Prelude.{◌≡◌};
    ghost use Rattle.calls.specs.Refusal.{first_of, answered};
    ghost use Rattle.frames.specs.FrameLayout.{frame_layout, layout_refusals};

    // By its number, 4 x set + map: 0 to 7.
    #[tactic(auto, unfolding(crate::specs::FrameLayout::frame_layout))]
    pub fn of(number: usize) -> Result<FrameLayout, Refusal>
        ensures { result ≡ answered (first_of (layout_refusals number)) (frame_layout number) }
    {
        let set = InfoSet::of(number / 4)?;
        Ok(FrameLayout {
            set,
            map: map_of(number % 4),
        })
    }
}

// By the degrees of the code's first 52 information positions.
pub fn tables(code: &Sound, map: BitMap) -> Tables
    requires { 52 ≤ k_of code.now }
    ensures { result ≡ layout_in code.now map }
{
    let lent = code.lent;
    let mut degrees = [0usize; 52];
    for (j, d) in degrees.iter_mut().enumerate() {
        *d = degree(code, lent.info[j] as usize);
    }
    Tables::of(map, &degrees)
}
