// For every entry point, which refusal it gives and what it accepts, in the words of the rules: 1, 2, 3 and 20 beside 4 to 13 of `given`.
// There is no code here: specs/ says it and proofs/ shows it, from each function's promise alone.
#![tactic(auto)]
