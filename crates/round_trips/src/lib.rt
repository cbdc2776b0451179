// What holds of the sheet's reader and writer together: each undoes the other; there is no code here.
#![tactic(auto)]
