// Mathematics only: `specs/` has the run of Algorithm 3 in row order, and `proofs/` what it does to a mesh. Nothing here runs.
#![tactic(auto)]
