// The record rules hold once for both kinds of table: two well-formed tables that differ in the mark, in use, filter, SPECIAL and the
// places of texts alone are read, judged and written by alike. Definitions and laws only. Above it stands the page of demands.
#![tactic(auto)]
