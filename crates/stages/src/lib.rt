// No code: key stages of 2t columns, what they are and the laws of them, in specs/ and proofs/.

#![tactic(auto)]
