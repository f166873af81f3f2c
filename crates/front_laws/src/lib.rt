// What is sent of a definition is the clean text of its survey: theorems only. Above it stands the writer of clean definitions.
#![tactic(auto)]
