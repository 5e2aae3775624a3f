// Mathematics only: `specs/` has a mesh with vertices dropped and its holes closed (02, L5), and `proofs/` that it is as sound tables hold it. Nothing here runs.
#![tactic(auto)]
