// What the walk over a definition sends is its clean text: theorems only. Above it stands the writer of clean definitions.
#![tactic(auto)]
