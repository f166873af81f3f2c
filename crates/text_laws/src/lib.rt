// What decoded texts are known to be, as theorems over the rule: a break stands exactly where {NL} does; a text of a table decodes to what
// its string says; no refusal of a definition hangs on it. Definitions and theorems only; nothing stands above it.
#![tactic(auto)]
