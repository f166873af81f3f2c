// A survey as plain data: what a definition says, whoever read it, and the table that it gives. Definitions only. Above it stand the
// readers of definitions.
#![tactic(auto)]
