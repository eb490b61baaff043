// Which values make an image that check takes: definitions and laws alone, in specs/ and proofs/.
#![tactic(auto)]
