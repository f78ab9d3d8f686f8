// No code: the worked telegrams of docs/RULES.md, one table of claims in specs/ that proofs/ has computed against the definitions.
#![tactic(auto)]
