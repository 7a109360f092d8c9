// The checks at the edges of document 01, as one table and one theorem. There is no code here.
#![tactic(auto)]
