// Sound tables: their definition, clause by clause, and the laws of tables that are sound. Nothing here runs.
#![tactic(auto)]
