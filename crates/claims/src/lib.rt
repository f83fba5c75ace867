#![tactic(auto)]

// Theorems only: what is claimed stands in specs/, the proofs in proofs/, and there is no code.
