// The two ways to play an event file over a bus file are one: statement in specs/Roads.antt, proof in proofs/Played.antt. No code.
#![tactic(auto)]
