// What the code of the XML road keeps of a variable, and the rule of crate `xml_reading`: laws only, with no text in them. Above it stand
// the
// readers of XML blocks and sheets.
#![tactic(auto)]
