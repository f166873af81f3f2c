// The refusals of a definition: each has a number of the table of document 01, 1 to 10, and its place lies in the text or is its
// length. Definitions and theorems only, over what the reader of definitions promises.
#![tactic(auto)]
