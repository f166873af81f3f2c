// Document 01's examples by computation over bytes. Its sample is read and listed, its proved readings begin with the texts of
// their variables, and short texts are refused with each number at its place. Theorems only; nothing stands above it.
#![tactic(auto)]
