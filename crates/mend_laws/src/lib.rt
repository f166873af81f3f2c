// What the mender promises, as theorems over the public definitions: its pieces hold no line end, the mended file's line ends, lengths and
// bytes are sound, a sound file stays, twice is once, no other byte differs. Definitions and laws only.
#![tactic(auto)]
