// Two computed runs of which demand 3 speaks: see proofs/TwoRuns.antt. They stand apart from `paper` because to compute them takes longer than all of its proofs.
#![tactic(auto)]
