// Gauss-Jordan elimination of a graph's check matrix (`elimination`, on rows by `matrix_rows`), and the encoder that it gives (`encoder`); positions
// that stand in a list, and the others (`positions`).
#![tactic(auto)]

pub mod elimination;
pub mod encoder;
mod matrix_rows;
pub mod positions;
