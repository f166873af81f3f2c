// The laws of normal forms: theorems only. Above it stands the page of final theorems.
#![tactic(auto)]
