// Layouts: the drawing of an ordered binary tree, by definition. What is proved of it stands in proofs/; the code that draws is the crate `drawing`.
#![tactic(auto)]
