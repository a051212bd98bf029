// Replays fixed lists of answers against the library, and prints what differs and where. The lists stand in data/, and what a good run prints in stdout. What a failed
// write leaves out is missed where that is compared, so no answer of a write is read and the program goes on.
#![tactic(auto)]

use std::io;

mod answers;
mod call;
mod case;
mod code;
mod code_calls;
mod digest;
mod field_calls;
mod fields;
mod frame_calls;
mod frame_decodings;
mod given;
mod graph_calls;
mod lending;
mod list;
mod number;
mod rate_calls;
mod tally;

// The last is wrong on purpose. What is printed of it shows that a wrong case would be seen in the others.
const LISTS: [&str; 10] = [
    "splitmix64.txt",
    "field.txt",
    "graph.txt",
    "words.txt",
    "peeling.txt",
    "decoding.txt",
    "list_decoding.txt",
    "rates.txt",
    "frames.txt",
    "wrong.txt",
];

fn main(rt: HostRuntime) -> io::Result<()> {
    for name in LISTS {
        list::replay(&rt, name)?;
    }
    Ok(())
}
