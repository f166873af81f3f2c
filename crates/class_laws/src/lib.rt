// The classes of bytes beside the bytes that scanners compare: a scanner that asks for one byte (a quote, a brace, an angle, a space) or
// for
// bytes below 32 asks for a class. Laws only; nothing stands above it.
#![tactic(auto)]
