// What is promised over all calls together. `specs/Promise.antt` states it and `specs/Starred.antt` the starred values; `proofs/` proves them. `again` is the promise of
// frames on two calls that are made.
#![tactic(auto)]

ghost use Rattle.promise.specs.Promise.{Promised};
ghost use Rattle.promise.specs.Starred.{StarredValues};

pub mod again;

// A promise alone, and no code.
pub fn promise()
    ensures { Promised }
{}

// The starred values, one table.
pub fn starred_values()
    ensures { StarredValues }
{}
