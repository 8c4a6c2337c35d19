//! The grammar of programs, and the stack machine that it is read by. Definitions stand in specs/, and the
//! lemmas in proofs/ are cited from there.
#![tactic(auto)]
