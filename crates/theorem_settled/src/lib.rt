// Document 01, 'How each public answer is settled': any two answers that a promise allows coincide, with what they
// leave in the lent buffers. One definition over a contract's own clauses (specs/Settled.antt), and an instance for
// every public entry (proofs/Settled.antt): an entry that is not named there is not settled. There is no code.

#![tactic(auto)]
