// No code: what the contracts of the public functions promise together. The statements stand in specs/, their proofs
// in proofs/.
#![tactic(auto)]
