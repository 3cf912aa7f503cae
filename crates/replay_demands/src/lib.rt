// The demands over the turns of a replayed log: nothing here runs. The statements stand in specs/, over the definitions that the contracts
// of the context and of the replay cite; their proofs in proofs/.

#![tactic(auto)]
