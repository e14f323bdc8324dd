// The marked examples of document 01, and examples of reasons for document 02: laws only.
#![tactic(auto)]
