// Subkey lists of a key, for either direction: what they are and the laws of them, in specs/ and proofs/.

#![tactic(auto)]

// Which way a subkey list is to be used.
#[derive(Clone, Copy, Debug, PartialEq, Eq)]
pub enum Direction {
    Enciphering,
    Deciphering,
}
