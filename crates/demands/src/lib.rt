// The demands as theorems: nothing here runs. The statements stand in specs/, over the definitions that the sender's contracts
// cite; their proofs in proofs/.

#![tactic(auto)]
