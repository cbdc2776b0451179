// Laws of signed numbers: their sizes, and what keeps sums, products and quotients of them in 64 bits; there is no code here.
#![tactic(auto)]
