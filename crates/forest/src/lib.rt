// Mathematics only: `specs/` has the theory's definitions and `proofs/` its theorems. Nothing here runs.
#![tactic(auto)]
