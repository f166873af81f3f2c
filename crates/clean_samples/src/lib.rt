// A small definition that went through three editors, its clean text byte for byte, and what that says when it is read, by computation.
// Theorems only; nothing stands above it.
#![tactic(auto)]
