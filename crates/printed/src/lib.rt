// Printed tokens as the grammar reads them: words, numbers, values and texts that stand in a file one after another are derived, with
// the bytes they were printed with. Theorems only; `clean_laws` above it reads the clean text of a definition by them.
#![tactic(auto)]
