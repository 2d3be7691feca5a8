// The worked cases of document 01 as rows of one list, proved together: `cases` of specs/Cases.antt holds
// by `cases_hold` of proofs/Rows.antt. There is no code.

#![tactic(auto)]
