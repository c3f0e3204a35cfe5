// The token rule over lists of calls for C, which hand the bytes of a state from one to the next. There is
// no code here: the calls stand under specs/, the theorem under proofs/.
#![tactic(auto)]
