//! What a journal counts: who is admitted, the loads of the nodes, the server sets, the paths that each node keeps, and the jobs that wait
//! at each disk. Folds over its records, the oldest first.
//!
//! It stands above the journal and the leaves of policy and stores, whose words it takes, and on no law. It has no code.
#![tactic(auto)]
