// The texts of a table that was read from a definition in XML: `zarfolin_decode_text` never answers 3 for one, and says what its derivation
// says; and a sample that is derived. Theorems only, over the derivations of crate `xml_derivations`; the final page `demands_02` stands
// above it.
#![tactic(auto)]
