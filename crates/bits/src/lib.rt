// Fields in the bits of bytes, most significant first, of any width; there is no code here.
#![tactic(auto)]
