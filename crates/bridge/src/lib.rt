// The code's books of a definition say what document 01's reading says: each reader that a contract of the code names answers as the
// reader of crate `reading` does, bottom up. Theorems only. Above it stands the reader of definitions, whose contract cites the latter.
#![tactic(auto)]
