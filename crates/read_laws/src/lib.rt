// What the readings of a record promise, as theorems over the public definitions: no two outcomes, value places alone, refused exactly
// when, and document 01's own list of readings. Definitions and laws only; nothing stands above it.
#![tactic(auto)]
