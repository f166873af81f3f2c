// Reading a definition, as document 01 has it: which text says which survey, and what is refused, with its number and place. Definitions
// only. Above it stand the proof that the code's books say the same (`bridge`) and the reader of definitions.
#![tactic(auto)]
