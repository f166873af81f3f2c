// Tables decided by computation: a sound one with every kind of row, and for each clause of the test one that breaks this clause and
// no other. Definitions and theorems only; nothing stands above it.
#![tactic(auto)]
