// No code: the demands as definitions (specs/) and theorems (proofs/) over the definitions that the contracts cite.
#![tactic(auto)]
