// Further final theorems of document 02's requests on one page (crate `demands` has the first page): what XML is in the paper's words,
// uses and filters, texts of both kinds, and comma-separated text. What their statements cite is held to the rule (tools/believe).
// Nothing stands above it.
#![tactic(auto)]
