// That a row's value places are once each and inside the record, that a field's reading undoes its writing, and that what a
// field holds may be written. Definitions and laws only. Above it stand the calls that write records and the laws of corrections.
#![tactic(auto)]
