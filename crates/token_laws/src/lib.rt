// The tokens of a definition in the paper's words, both ways: strings, comments and gaps, words and values, the opening. Theorems only,
// over what the scanners promise; nothing stands above it.
#![tactic(auto)]
