// The laws of packets that are counted whole: each keeps its rules, field by field, and where all are in metres a copy is the normal form. There is
// no code here; the theorems are in proofs/.
#![tactic(auto)]
