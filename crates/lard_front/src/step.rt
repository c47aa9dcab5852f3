//! The front end's step: what comes is done by the rule of its connection.

ghost use Rattle.std.specs.Prelude.{◌≡◌, ◌≤◌, IfOk, OnOk};
ghost use Rattle.lard_base.specs.declared.limits.TheConstants.{MAX_STREAM_BYTES};
ghost use Rattle.lard_dispatch.specs.Sound.{AreBefore};
ghost use Rattle.lard_rules.specs.FrontPlace.{front_step};
ghost use Rattle.lard_rules.specs.FrontSound.{IsFrontSound, MayClose};
ghost use Rattle.lard_front.specs.Bounds.{IsFrontOut, IsShort};
ghost use Rattle.lard_front.specs.Place.{front_setting_seen};

use crate::closing::drain;
use crate::receiving::{receive, time_out};
use crate::told::message_comes;
use crate::turns::Around;
use lard_base::{Millis, NoMemory, Place};
use lard_files::Files;
use lard_rules::{FrontIn, FrontState, Out};
use lard_seq::Seq;
use lard_serving::Env;
use std::alloc::Global;

/// What never changes in a run, and the time.
#[derive(Clone, Copy)]
pub struct Setting<'a> {
    pub files: &'a Files,
    /// The most bytes of responses on one connection.
    pub stream: u32,
    pub now: Millis,
}

/// Does the rule of what comes, on a state of `begin` or of steps that were done. No server set was changed after this
/// time; a segment has at most 1,520 bytes; a node is closed, or gives a connection back or refuses one, while another one is
/// open. Without memory the state is of no use any more but to be spent.
pub fn step(
    state: &mut FrontState,
    alloc: Global,
    setting: &Setting<'_>,
    input: FrontIn,
) -> Result<Out, NoMemory>
    requires sound { IsFrontSound state.old }
    requires clock { AreBefore setting.now.now.0 state.old.dispatch.books.sets }
    requires stream { setting.now.stream ≤ MAX_STREAM_BYTES }
    requires short { IsShort input }
    requires closes { MayClose state.old input }
    ensures ok { IfOk result (λ out. (state.new, out) ≡ front_step (front_setting_seen setting.entry.now) state.old input) }
    ensures sound { OnOk result (IsFrontSound state.new) }
    ensures clock { OnOk result (AreBefore setting.entry.now.now.0 state.new.dispatch.books.sets) }
    ensures fits { IfOk result IsFrontOut }
{
    act(state, alloc, setting, input)
}

/// What comes is done by its kind.
fn act(
    state: &mut FrontState,
    alloc: Global,
    setting: &Setting<'_>,
    input: FrontIn,
) -> Result<Out, NoMemory>
    requires sound { IsFrontSound state.old }
    requires clock { AreBefore setting.now.now.0 state.old.dispatch.books.sets }
    requires stream { setting.now.stream ≤ MAX_STREAM_BYTES }
    requires short { IsShort input }
    requires closes { MayClose state.old input }
    ensures out { IfOk result (λ out. (state.new, out) ≡ front_step (front_setting_seen setting.entry.now) state.old input) }
    ensures fits { IfOk result IsFrontOut }
{
    match input {
        FrontIn::Segment { c, iss, bytes } => {
            let around = Around {
                serve: Env {
                    place: Place::Front,
                    c,
                    files: setting.files,
                    stream: setting.stream,
                },
                iss,
                time: setting.now,
            };
            return receive(state, alloc, &around, bytes.as_slice());
        }
        FrontIn::Message { from, bytes } => {
            return message_comes(state, alloc, setting, from, bytes.as_slice());
        }
        FrontIn::Timer(c) => {
            let around = Around {
                serve: Env {
                    place: Place::Front,
                    c,
                    files: setting.files,
                    stream: setting.stream,
                },
                iss: Seq(0),
                time: setting.now,
            };
            return time_out(state, alloc, &around);
        }
        FrontIn::Drain(n) => return drain(state, alloc, n),
    }
}
