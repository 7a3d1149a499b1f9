#![tactic(auto)]

// Document 01's sixteen cases, as a table (specs/Table.antt) and one theorem about the rules (proofs/Sixteen.antt). No code.
