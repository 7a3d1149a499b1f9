#![tactic(auto)]

// How large a difference of two texts gets: the range (specs/Reach.antt), shown of all texts and reached by two (proofs). No code.
