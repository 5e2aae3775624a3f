// Mathematics only, so far: `specs/` has the completion loop of the second engine, and `proofs/` what it does to a mesh. Nothing here runs.
#![tactic(auto)]
