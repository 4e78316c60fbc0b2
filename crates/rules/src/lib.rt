// No code: document 01 as definitions (specs/) and their laws (proofs/), which the layers above cite.
#![tactic(auto)]
