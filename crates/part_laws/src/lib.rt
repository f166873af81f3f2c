// What the judgement of a part of a file promises, as theorems over the public definitions: a file judged in parts, each beginning where
// the one before left off, gets its own verdict; and a file is judged as each of its records is. Definitions and laws only.
#![tactic(auto)]
