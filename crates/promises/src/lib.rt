// The page of promises: what is proved beyond the contracts of functions. specs/Promises says each, proofs/Promises names its law.
#![tactic(auto)]
