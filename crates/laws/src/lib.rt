// The demands as theorems over what the public calls promise: the laws of corrections for every kind of row and every well-formed
// table. Definitions and theorems only; nothing stands above it.
#![tactic(auto)]
