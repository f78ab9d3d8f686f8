// The laws of telegrams: theorems over the definitions of `format`, for any terms (those about the place for the one that holds) and, where it can be,
// any source.
// There is no code here; the theorems are in proofs/, and the code's proofs stand on them.
#![tactic(auto)]
