// The demands over a table of flows, as theorems: nothing here runs. The statements stand in specs/, over the definitions that the
// context's contracts cite; their proofs in proofs/.

#![tactic(auto)]
