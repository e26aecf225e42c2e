// No code: the rounds over any list of subkeys, the turned list and the laws of them, in specs/ and proofs/.

#![tactic(auto)]
