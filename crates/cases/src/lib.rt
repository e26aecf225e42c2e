// No code: the worked cases of document 01, proved from the definitions in specs/ and proofs/.

#![tactic(auto)]
