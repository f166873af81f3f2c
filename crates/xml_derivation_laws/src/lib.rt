// Definitions in XML are read exactly as crate `xml_derivations` derives them: both ways, element by element and the whole file. Theorems
// only; `xml_text_laws` and the final page `demands_02` stand above it.
#![tactic(auto)]
