// Texts that the grammar of crate `grammar` derives, and texts where it stops: document 01's own, by the computed readings of crate
// `definition_samples`. Theorems only; nothing stands above it.
#![tactic(auto)]
