// What the rule of crate `xml_reading` reads lies within the file, and is fine: laws only. Above it stands the reader of sheets.
#![tactic(auto)]
