// THE CLEAN TEXT READS BACK (document 02, C-11): from the derivation of a definition one of its clean text is built, saying the same but
// for places; so it is read, its table is the same but for text places and lengths, its texts decode alike, and it is its own clean text.
// Theorems only.
#![tactic(auto)]
