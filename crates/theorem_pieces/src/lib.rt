// However a bank is cut into pieces, its reader reports the same patches and closes with the same answer: a theorem
// over the definitions of `bank_pieces` and `bank`. specs/Cuts.antt says what a list of pieces is, whose rests are
// given again, and what the reports must be; proofs/Cuts.antt proves it. There is no code.

#![tactic(auto)]
