// No code: definitions on lists, counts and loops that every layer cites (specs/), and their laws (proofs/).
#![tactic(auto)]
