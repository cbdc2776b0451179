// Document 01's exact values in fractions, and how near the working rule's are to them (demand 3); there is no code here.
#![tactic(auto)]
