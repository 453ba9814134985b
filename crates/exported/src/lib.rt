// Theorems about calls of the exported functions: a run of them, demands 2 and 3; no result has 161; what dos_name counts. No code.
#![tactic(auto)]
