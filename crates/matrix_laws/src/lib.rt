// What the matrix of a file says, in document 02's words: one outcome, its length, where each record's presence byte, value and each
// column's summary stand, and which value is the smallest and the largest. Definitions and laws only.
#![tactic(auto)]
