// Reading a definition in XML 1.2, as document 000, document 02 (C-15) and the readings have it: which file says which survey, and what is
// refused, with its number and place. Definitions only; crate `reading` has those of 1.1. Above it stand the readers of the XML road
// (`elements`, `blocks`, `filters`, `prefaces`, `sheets`) and the call that reads both kinds.
#![tactic(auto)]
