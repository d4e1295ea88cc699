//! What is read of the printed text of a pruned proof: how high its terms are, and that none of them has a let where lets were replaced.
//! A text of which no term with a let is read is read alike where lets are kept and where they are replaced.
//!
//! The functions of `laws` do nothing: their contracts are laws over the definitions of `printed_proofs` and `alethe_text`.
#![tactic(auto)]

pub mod laws;
