// Loops over the lent register. No code and no rule of the paper: specs/ has the few words that contracts of functions over it are written in, proofs/ the laws
// of one turn more.
#![tactic(auto)]
