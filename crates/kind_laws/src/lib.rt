// What is said of both kinds of definition together, in document 02's words and those of its readings: which numbers never occur for one of
// them, and that tables of both kinds that say the same differ only where no record rule looks. Definitions and theorems only; the demands
// stand above it.
#![tactic(auto)]
