// What writing a clean definition says, in document 02's words: one outcome, which answer exactly when, what the output then holds, and
// that its text reads back and is written again. Definitions and laws only.
#![tactic(auto)]
