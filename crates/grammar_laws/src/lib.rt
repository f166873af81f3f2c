// A definition is read exactly as the grammar of document 01 derives it (crate `grammar`), and refused exactly where a beginning of a
// derivation stops. Theorems only; of the crates `grammar_samples` and `follow_laws` alone stand above it.
#![tactic(auto)]
