// The words that list decoding tries: the information symbols at their likeliest values, the least sure of them also at the second likeliest, and every combination
// encoded and scored.
#![tactic(auto)]

pub mod alternatives;
pub mod generators;
pub mod gray;
pub mod least_sure;
pub mod score;
