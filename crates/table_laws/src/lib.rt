// What the test of a table promises beyond its clauses, as theorems over the public definition. Definitions and laws only. Above it stands
// the page of demands.
#![tactic(auto)]
