// The order that union gives: definitions and laws, and nothing that runs.
#![tactic(auto)]
