// The demands of document 01 on one page: for each the final theorems over the promises of the public calls, restated and proved by name.
// Definitions and laws only; nothing stands above it.
#![tactic(auto)]
