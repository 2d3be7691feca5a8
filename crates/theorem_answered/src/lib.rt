// No call on the way to an identifier is refused: a theorem over the definitions of `identity`. For every patch that a
// voice and an LFO take, each step of the LFO, its two readings, each block of the voice and the blank block before
// each note have the number 0 (specs/Answered.antt names the calls, proofs/Answered.antt proves it), so no sample that
// is hashed comes from a refused call. There is no code.

#![tactic(auto)]
