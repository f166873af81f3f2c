// Sets back to bytes: a bitstring's `0` and `1` at its defined places, a spread's members in its subfields, spaces for a missing
// value, and whether a set may be written. Above it stands the writer of records.
#![tactic(auto)]

pub mod bits;
pub mod judge;
pub mod spread;
