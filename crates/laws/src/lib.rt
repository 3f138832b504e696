// Laws that belong to no one crate: loops over lists, tables, tests in an order, exclusive or, one answer for a contract.
// No code and no rule of the paper: specs/ has the few general words that specifications are written in, proofs/ their laws.
#![tactic(auto)]
