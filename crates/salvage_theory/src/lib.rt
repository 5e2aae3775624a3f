// Mathematics only: `specs/` has what salvage keeps of damaged tables and the rebuild from it, and `proofs/` what comes of it. Nothing here runs.
#![tactic(auto)]
