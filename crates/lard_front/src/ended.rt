//! What is said on a connection that ended.

ghost use Rattle.std.specs.Prelude.{◌≡◌, ◌≤◌, false, length, None, IfOk, IfSome, option_map};
ghost use Rattle.lard_base.specs.declared.limits.TheConstants.{MAX_SEGMENT_DATA};
ghost use Rattle.lard_rules.specs.Tombstone.{is_telling, last_ack, last_words, refusal, tombstone};
ghost use Rattle.lard_segment.specs.Segment.{said};
ghost use Rattle.lard_serving.specs.Serving.{env_seen};
ghost use Rattle.lard_serving.specs.Bounds.{IsTurn};

use lard_base::limits::RECEIVE_WINDOW;
use lard_base::{NoMemory, Reason};
use lard_endpoint::Final;
use lard_rules::Turn;
use lard_segment::{Flags, Segment};
use lard_seq::Seq;
use lard_serving::{Env, silent, told};
use std::alloc::Global;

/// What is said on a connection that ended (RFC 9293, 3.10.7.4, TIME-WAIT, and 3.10.7.1). `NoMemory` where memory runs
/// out.
pub fn tombstone(
    alloc: Global,
    env: &Env<'_>,
    last: Final,
    segment: &Segment<'_>,
) -> Result<Turn, NoMemory>
    ensures turn { IfOk result (λ turn. turn ≡ tombstone (env_seen env.now) (last_words last.reason last (said segment.now))) }
    ensures fits { IfOk result IsTurn }
{
    match last_words(last, segment) {
        None => return Ok(silent(alloc)),
        Some(words) => {
            let mut turn = silent(alloc);
            turn.segments.push(told(alloc, env, &words)?)?;
            return Ok(turn);
        }
    }
}

/// What an ended connection answers by: the ACK with the last numbers (RFC 9293, 3.10.7.4, TIME-WAIT), or the RST of one
/// that is not known (3.10.7.1).
fn last_words(last: Final, segment: &Segment<'_>) -> Option<Segment<'static>>
    ensures words { option_map said result ≡ last_words last.reason last (said segment.now) }
    ensures plain { IfSome result (λ words. words.mss ≡ None) }
    ensures empty { IfSome result (λ words. length words.payload.now ≤ MAX_SEGMENT_DATA) }
    ensures no_ack { IfSome result (λ words. words.flags.ack ≡ false → words.ack.0 ≡ 0) }
{
    match last.reason {
        Reason::Closed => {
            if is_telling(segment) {
                return Some(last_ack(last));
            }
            return None;
        }
        Reason::Peer => return None,
        Reason::Limit => {
            if segment.flags.ack && !segment.flags.rst {
                return Some(refusal(segment.ack));
            }
            return None;
        }
    }
}

/// Whether a segment has something to acknowledge, and is no RST.
fn is_telling(segment: &Segment<'_>) -> bool
    ensures { result ≡ is_telling (said segment.now) }
{
    let flags = segment.flags;
    !flags.rst && (flags.syn || flags.fin || !segment.payload.is_empty())
}

fn last_ack(last: Final) -> Segment<'static>
    ensures { said result ≡ last_ack last }
{
    Segment::control(last.snd, last.rcv, Flags::ACK, RECEIVE_WINDOW)
}

fn refusal(ack: Seq) -> Segment<'static>
    ensures { said result ≡ refusal ack.0 }
{
    Segment::control(ack, Seq(0), Flags::RST, 0)
}
