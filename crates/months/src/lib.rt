// No code: a month of rain totals, as definitions (specs/) and theorems (proofs/) over what one call answers and leaves.
#![tactic(auto)]
