// No code: that nothing opens, is issued or is sealed for size block 0, and that pages sealed for it still open, in specs/ and proofs/.

#![tactic(auto)]
