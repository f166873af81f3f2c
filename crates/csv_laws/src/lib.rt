// Comma-separated text in its grammar, both ways: what is read from a text is what the grammar derives. Definitions and laws only.
#![tactic(auto)]
