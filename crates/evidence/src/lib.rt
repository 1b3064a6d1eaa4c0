//! The evidence file (request E12): what its check and its writing answer, and what follows from that.
#![tactic(auto)]
