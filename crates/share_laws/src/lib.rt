// Shares without a leading zero, in the paper's words: which blocks get point code 2, and that no width grows by it. Theorems only; above
// it stands nothing.
#![tactic(auto)]
