#![tactic(auto)]
// Tables that the checker computes, in `proofs/`, and no code: plans and their answers, worked out by hand from documents
// 01 and 02, and the old table of warm-ups.
