// What the bytes of a row's value places say, and the bytes that a value is written as: document 01's table of readings.
// Definitions and laws only. Above it stand the calls that read and write records.
#![tactic(auto)]
