#![tactic(auto)]

// The demands, held to the entries' own contracts: laws only, in proofs/.
