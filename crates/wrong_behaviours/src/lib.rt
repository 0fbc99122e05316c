// Wrong programs as definitions, in specs/, and the proofs that no demand lets them pass, in proofs/. There is no code.
#![tactic(auto)]
