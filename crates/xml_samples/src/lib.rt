// Definitions in XML by computation over bytes: document 000's example as printed, a small survey with a serial and a filter, and short
// texts that are refused with each number at its place. Theorems only; nothing stands above it.
#![tactic(auto)]
