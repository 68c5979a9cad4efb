// What the answers were before a request of document 02, and what that request keeps of them: specs/ and proofs/.
#![tactic(auto)]
