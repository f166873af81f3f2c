// The laws of a list of corrections, over the promise of the call: theorems only.
#![tactic(auto)]
