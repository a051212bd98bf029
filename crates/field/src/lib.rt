// The field of 32 elements and the generator SplitMix64: the lowest layer with code.
#![tactic(auto)]

pub mod gf;
pub mod multiples;
pub mod splitmix64;
pub mod tables;
pub mod wrapping;
