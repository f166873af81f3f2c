// The rule in the paper's words, both ways, where a definition of it is a test or takes a number by another road than the sentence does:
// which values a row takes, the width w, a file's terminator, a statement judged, tokens that are due. Theorems only; nothing stands above
// it.
#![tactic(auto)]
