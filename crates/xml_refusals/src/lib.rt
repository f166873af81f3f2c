// Where a definition in XML is refused, by derivations over the table of document 000's elements (crates `xml_grammar`, `xml_derivations`):
// what stands before is derived with nothing charged, and there it stops. Definitions and theorems only; the final page `demands_02` stands
// above it.
#![tactic(auto)]
