// The lent job: what 13 and 14 ask, what its calls answer and leave, and that these are the answers of the texts. The definitions
// are in specs, the laws in proofs; there is no code.
#![tactic(auto)]
