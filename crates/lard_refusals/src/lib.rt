//! Short wrong journals, each with a proof that a law of journals refuses it.
//!
//! A law that a slip made empty would refuse nothing, and all that is proved of it would stay proved. So each field of `IsLawful`
//! has a function here, `FIELD_refuses`. Its clause `law` says that every lawful journal obeys what refuses them; each other clause
//! names a journal that the law refuses, or one that it allows: a refused one, mended in a record or two. It has no code, and
//! nothing stands on it.
//!
//! All journals are of one cluster (`three_nodes`) and of its two files. A journal is as short as shows its mistake, so it may
//! leave out records that other laws want.
//!
//! Of the bodies that docs/CLAIMS.md calls wrong these have no journal here, since no law of journals refuses them:
//! - one that accepts bytes behind a message, or a second spelling of one: no packet of a run is such (`decode` of `lard_message`
//!   refuses it);
//! - one that always answers a read fault, a limit or `Usage`, that does no round of a settle, or that prints counts of a schedule
//!   that it does not replay: the clauses of `run` and `settle` beside the laws refuse it;
//! - a place of the cluster that sends packets which nobody needs, or does not answer what comes again: only `machine` and `enough`
//!   say what it has to send. What a client sends its table says (`needless_packet`);
//! - one that always answers that memory ran out: a test refuses it.
#![tactic(auto)]

pub mod admission;
pub mod asks;
pub mod clients;
pub mod closing;
pub mod contents;
pub mod moves;
pub mod network;
pub mod owners;
pub mod placing;
pub mod quiet;
pub mod service;

ghost use Rattle.lard_refusals.specs.Refusals.{MayBeUsed};

/// The cluster that all journals here are of is one that may be used.
pub fn three_nodes_may_be_used()
    ensures checked { MayBeUsed }
{}
