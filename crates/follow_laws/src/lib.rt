// What stands behind a definition's `END SSS` is ignored; a 2 at the end of the file; one text says one survey. Theorems only, over the
// grammar of crate `grammar`; nothing stands above it.
#![tactic(auto)]
