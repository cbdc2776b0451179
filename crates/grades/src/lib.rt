// Document 02's heights on a grade and in a vertical curve (N5); there is no code here.
#![tactic(auto)]
