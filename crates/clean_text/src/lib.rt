// The clean text of a definition (document 02, C-11) as plain data: a text is lines, a line is tokens. Definitions only; `clean` above it
// writes it, `clean_laws` proves that it reads back.
#![tactic(auto)]
