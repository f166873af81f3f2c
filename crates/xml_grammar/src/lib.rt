// The grammar of document 000's elements as plain data, a line an element, and that a definition in XML is read exactly as a reader that
// knows nothing but this data and what each element says. Definitions and theorems only; the derivations over it (`xml_derivations`) stand
// above it.
#![tactic(auto)]
