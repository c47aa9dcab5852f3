//! What an Offer is to a node.

ghost use Rattle.std.specs.Prelude.{◌≡◌};
ghost use Rattle.std.specs.FinMap as map;
ghost use Rattle.lard_handoff_back.specs.Leaving.{exceeds, is_free, is_this_epoch, offer_decision, row_epoch};
ghost use Rattle.lard_handoff_back.specs.Table.{beside_in};

use super::{Adopt, BackTable};
use crate::row::BackRow;
use lard_base::Epoch;
use lard_table::Table;

/// What an Offer of this epoch is.
pub fn decision(table: &BackTable, c: u32, epoch: Epoch) -> Adopt
    ensures { result ≡ offer_decision table.now.leaving epoch.0 (map.get table.now.rows c) (beside_in table.now c) }
{
    let row = row_epoch(&table.conns, c);
    let refused = refused_epoch(&table.refused, c);
    if exceeds(epoch, row) && exceeds(epoch, refused) {
        if table.leaving {
            return Adopt::Refuse;
        }
        if is_free(&table.conns, c) {
            return Adopt::New;
        }
        return Adopt::Stale;
    }
    if is_this_epoch(epoch, refused) && exceeds(epoch, row) {
        return Adopt::Refuse;
    }
    if is_this_epoch(epoch, row) && exceeds(epoch, refused) {
        return Adopt::Again;
    }
    Adopt::Stale
}

/// The highest epoch in which the connection was taken.
fn row_epoch(conns: &Table<BackRow>, c: u32) -> Option<Epoch>
    ensures { result ≡ row_epoch (map.get conns.now c) }
{
    match conns.get(c) {
        Some(row) => return Some(row.epoch),
        None => return None,
    }
}

/// The highest epoch in which it was refused.
fn refused_epoch(refused: &Table<Epoch>, c: u32) -> Option<Epoch>
    ensures { result ≡ map.get refused.now c }
{
    refused.get(c).copied()
}

/// Whether the epoch exceeds this one, if there is one.
fn exceeds(epoch: Epoch, last: Option<Epoch>) -> bool
    ensures { result ≡ exceeds epoch.0 last }
{
    match last {
        Some(last) => last.0 < epoch.0,
        None => true,
    }
}

/// Whether this is the epoch.
fn is_this_epoch(epoch: Epoch, last: Option<Epoch>) -> bool
    ensures { result ≡ is_this_epoch epoch.0 last }
{
    match last {
        Some(last) => last.0 == epoch.0,
        None => false,
    }
}

/// Whether nothing of the connection is here or out, and no answer to its end is awaited.
fn is_free(conns: &Table<BackRow>, c: u32) -> bool
    ensures { result ≡ is_free (map.get conns.now c) }
{
    match conns.get(c) {
        Some(row) => row.stage.is_gone(),
        None => true,
    }
}
