// The laws of an import, in document 02's words: the round trip, what is accepted, refusals exactly when. Definitions and laws only.
#![tactic(auto)]
