// What an export says, in document 02's words: one outcome, which answer exactly when, how many lines it has, what is quoted. Definitions
// and
// laws only.
#![tactic(auto)]
