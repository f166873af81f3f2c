// The table that a survey gives is well formed. Definitions and theorems only. Above it stands the reader of definitions.
#![tactic(auto)]
