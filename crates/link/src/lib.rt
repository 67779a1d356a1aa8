// What is said of the link between a node and the gateway: the runs stand in specs/, the theorems in proofs/.

#![tactic(auto)]
