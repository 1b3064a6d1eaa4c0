//! Decided readings of document 01 and of the requests, the rows that document 01 marks P, and places of texts, proved of the definitions: proofs/Readings.antt,
//! proofs/Bench.antt, proofs/Located.antt.
#![tactic(auto)]
