// Whole runs of a voice and an LFO, as a definition: any list of calls, accepted or refused, gives a list of answers,
// buffers and states (specs/Run.antt). Demand 3 is a theorem over it (proofs/Demand3.antt), and so is that a state that
// calls have reached is never refused with 9 (proofs/Reached.antt), unless a host stores what a refused start hands out
// (proofs/Lost.antt); one run is computed to its samples (proofs/Sounds.antt). There is no code.

#![tactic(auto)]
