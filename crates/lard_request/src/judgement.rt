//! The judgement of one block.

ghost use Rattle.std.specs.Prelude.{◌≡◌, ◌≤◌, length, None, Some, IfOk, IfNone, IfSome};
ghost use Rattle.httparse.specs.Grammar.{RequestHead};
ghost use Rattle.httparse.specs.Spans.{IsRequestWithin, IsRequestAt};
ghost use Rattle.lard_request.specs.Found.{IsHeadAt};
ghost use Rattle.lard_request.specs.Head.{head_of};
ghost use Rattle.lard_request.specs.Verdict.{asked, head_verdict, verdict};

use crate::fields::{closes_behind, has_content, has_good_host, keep_fields};
use crate::lines::{count_pairs, holds_bare_feed};
use crate::target::path_of_target;
use crate::verdict::{Code, Verdict};
use httparse::Status;
use httparse::spans::{EMPTY_HEADER_SPAN, HeaderSpan, RequestSpans, parse_request};
use lard_base::limits::MAX_FIELDS;
use lard_base::{NoMemory, Path};
use std::alloc::Global;

/// The most pairs CR LF of a block: those of a request line, of its fields, and of the empty line.
const MOST_PAIRS: usize = MAX_FIELDS + 2;

/// How one block is judged: the first judgement that applies to it (RFC 9112, 3, 5 and 6). The block is any bytes.
/// `NoMemory` where memory runs out.
pub fn judge(alloc: Global, block: &[u8]) -> Result<Verdict, NoMemory>
    ensures { IfOk result (λ v. v ≡ verdict block.now) }
{
    if count_pairs(block) > MOST_PAIRS {
        return Ok(Verdict::Fault(Code::FieldsTooLarge));
    }
    if holds_bare_feed(block) {
        return Ok(Verdict::Fault(Code::BadRequest));
    }
    let mut spans = [EMPTY_HEADER_SPAN; MOST_PAIRS];
    match whole_head(block, &mut spans) {
        Some(head) => judge_head(alloc, block, &spans, &head),
        None => Ok(Verdict::Fault(Code::BadRequest)),
    }
}

/// Where the parts of the head are that the block is, from its first byte to its last.
fn whole_head(block: &[u8], spans: &mut [HeaderSpan]) -> Option<RequestSpans>
    requires { (h : RequestHead) → head_of block.now ≡ Some h → length h.fields ≤ length spans.old }
    ensures found { IfSome result (IsHeadAt block.now spans.new) }
    ensures within { IfSome result (IsRequestWithin block.now spans.new) }
    ensures none { IfNone result (head_of block.now ≡ None) }
{
    match parse_request(block, spans) {
        Ok(Status::Complete(head)) => {
            if head.len == block.len() {
                return Some(head);
            }
            None
        }
        Ok(Status::Partial) => None,
        Err(_) => None,
    }
}

/// How the head is judged whose parts are at these places.
fn judge_head(
    alloc: Global,
    block: &[u8],
    spans: &[HeaderSpan],
    head: &RequestSpans,
) -> Result<Verdict, NoMemory>
    requires within { IsRequestWithin block.now spans.now head.now }
    requires few { length spans.now ≤ MOST_PAIRS }
    ensures { (h : RequestHead) → IsRequestAt block.now spans.now head.now h
        → IfOk result (λ v. v ≡ head_verdict h) }
{
    let fields = keep_fields(alloc, block, &spans[..head.headers])?;
    if !has_good_host(head.version, &fields) {
        return Ok(Verdict::Fault(Code::BadRequest));
    }
    if has_content(&fields) {
        return Ok(Verdict::Fault(Code::TooLarge));
    }
    let close = closes_behind(head.version, &fields);
    judge_ask(alloc, head.method.of(block), head.path.of(block), close)
}

/// How a method that asks for a target is judged.
fn judge_ask(alloc: Global, method: &[u8], target: &[u8], close: bool) -> Result<Verdict, NoMemory>
    ensures { IfOk result (λ v. v ≡ asked method.now target.now close) }
{
    let head = method == b"HEAD".as_slice();
    if !head && method != b"GET".as_slice() {
        return Ok(Verdict::Fault(Code::NotImplemented));
    }
    match path_of_target(target) {
        Some(path) => {
            let path = Path::from_slice(alloc, path)?;
            Ok(Verdict::Serve { path, head, close })
        }
        None => Ok(Verdict::Fault(Code::BadRequest)),
    }
}
