// What is said of whole runs: the ledger's definitions stand in specs/, the theorems in proofs/.

#![tactic(auto)]
