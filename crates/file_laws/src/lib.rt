// What the judgement of a data file promises, as theorems over the public definitions: how a file is cut, and exactly which verdict it
// gets, record by record. Definitions and laws only. Above it stands the page of demands.
#![tactic(auto)]
