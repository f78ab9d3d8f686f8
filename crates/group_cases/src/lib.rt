// No code: worked groups, one table of claims in specs/ that proofs/ has computed against the definitions.
#![tactic(auto)]
