// What a text that is imported says, by the lines that are read from it: the rule. Definitions only; above it stands the import of a text.
#![tactic(auto)]
