//! What a journal says, as folds over its records, and the laws that the journals of this cluster obey, as definitions.
//!
//! It stands above the journal and the answers, and knows nothing of how a journal comes about: the laws of the machine
//! are stated in its words, and so are the clauses of `run`. It has no code.
#![tactic(auto)]
