// The rules have no code: what is proved here stands in specs/ and proofs/.
#![tactic(auto)]
