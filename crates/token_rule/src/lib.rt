// The token rule. There is no code here: the statement stands under specs/, the theorem and most of its
// laws under proofs/.
#![tactic(auto)]
