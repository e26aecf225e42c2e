// Blocks chained: definitions, laws and claims; no code.

#![tactic(auto)]
