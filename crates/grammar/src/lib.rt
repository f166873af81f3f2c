// The grammar of document 01 as plain data: which text says which survey, a type a line of the paper, by places in the file. Definitions
// only; crate `grammar_laws` above it proves that a definition is read exactly so.
#![tactic(auto)]
