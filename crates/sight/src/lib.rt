// Document 02's stopping distance and the lengths of vertical curves that it needs (N5); there is no code here.
#![tactic(auto)]
