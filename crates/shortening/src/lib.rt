#![tactic(auto)]

// What can be left out of a text, so that it is read the same and what is still open is short: laws of the rules. No code.
