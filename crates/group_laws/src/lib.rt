// The laws of balise groups: theorems over the definitions of `group`, and what the code of `verdicts` and `message` goes by.
// There is no code here.
#![tactic(auto)]
