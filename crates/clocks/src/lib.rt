// An exchange between two clocks and its four readings: definitions, in specs/, and their laws, in proofs/. There is no code.
#![tactic(auto)]
