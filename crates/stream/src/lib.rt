// Reading in pieces, as theory over any machine: specs/ has the definitions and the demands, proofs/ what holds of every family. No code.
#![tactic(auto)]
