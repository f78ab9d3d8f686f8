// The laws of packets that are passed whole, by what is to be sent and with no rows of the table. There is no code here; the theorems are in proofs/.
#![tactic(auto)]
