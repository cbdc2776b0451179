// The checks of a sheet and of the line that it holds, for every call that reads a sheet and works on its line; there is no code here.
#![tactic(auto)]
