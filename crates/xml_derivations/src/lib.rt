// Which file is a definition in XML, by derivations over the table of document 000's elements (crate `xml_grammar`): a start tag, what
// stands inside in the order of the table, an end tag, by places in the file. Definitions only, and no reader; crate `xml_derivation_laws`
// above it proves that a definition is read exactly so.
#![tactic(auto)]
