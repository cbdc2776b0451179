// What holds of a line's row of stations and of the calculator's refusals; there is no code here.
#![tactic(auto)]
