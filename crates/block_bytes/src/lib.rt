// No code: blocks and subkey lists as bytes, what they are and the laws of them, in specs/ and proofs/.

#![tactic(auto)]
