ghost use Rattle.std.specs.Prelude.{◌≡◌, ◌≢◌, ◌≤◌, ◌<◌, ◌+◌, ◌-◌, ◌++◌, ℕ, List, min, length, take, IfOk, IfErr, OnOk, vec_len, vec_capacity};
ghost use Rattle.pcap_read.specs.Header.{number_at};
ghost use Rattle.pcap_read.specs.Records.{most_captured};
ghost use Rattle.pcapng_read.specs.Blocks.{walk_past, keep_of, told_offset};
ghost use Rattle.pcapng_read.specs.Plans.{HasRoom, HasRoomForBlock};
ghost use Rattle.pcapng_read.specs.Inside.{data_of};
ghost use Rattle.pcapng_read.specs.View.{kept_in};

use crate::reader::Data;
use crate::{Body, NgBad, Plan, Walk};
use pcap_read::{fill, u32_at};

/// Takes bytes of a block that is known, up to the end of its front, of what is passed over, or
/// of its last four bytes.
pub fn take_part(plan: &Plan, seen: u32, held: &mut Vec<u8>, piece: &[u8]) -> usize
    requires room { 32 + most_captured ≤ vec_capacity held.old }
    requires small { keep_of plan.now ≤ 28 + most_captured }
    requires place { keep_of plan.now + 4 ≤ plan.now.total }
    requires seen { seen < plan.now.total }
    requires len { vec_len held.old ≡ min (keep_of plan.now) seen + (seen - (plan.now.total - 4)) }
    requires piece { 0 < length piece.now }
    ensures some { 0 < result }
    ensures bound { result ≤ length piece.now }
    ensures within { seen + result ≤ plan.now.total }
    ensures len { vec_len held.new ≡ min (keep_of plan.now) (seen + result) + (seen + result - (plan.now.total - 4)) }
    ensures kept { (x : List ℕ) → length x ≡ seen → held.old.items ≡ kept_in plan.now x
        → held.new.items ≡ kept_in plan.now (x ++ take result piece.now) }
    ensures capacity { vec_capacity held.old ≤ vec_capacity held.new }
{
    let front = plan.keep();
    let last = plan.total - 4;
    if seen < front {
        return fill(held, piece, front as usize);
    }
    if seen < last {
        return ((last - seen) as usize).min(piece.len());
    }
    fill(held, piece, front as usize + 4)
}

/// What stands behind a block whose total length stands once more at its end.
pub fn closed(walk: &Walk, plan: &Plan, bytes: &[u8], end: usize) -> Result<Walk, NgBad>
    requires end { end + 4 ≤ length bytes.now }
    requires counted { HasRoomForBlock walk.now }
    requires room { HasRoom walk.now plan.now }
    ensures ends { OnOk result (number_at plan.now.order 4 bytes.now end ≡ plan.now.total) }
    ensures walk { IfOk result (λ next. next ≡ walk_past walk.now plan.now) }
    ensures counted { IfOk result (λ next. HasRoomForBlock next) }
    ensures wrong { IfErr result (λ bad. number_at plan.now.order 4 bytes.now end ≢ plan.now.total) }
    ensures bad { IfErr result (λ bad. bad ≡ NgBad.BadBlock (told_offset walk.now) plan.now.total) }
{
    if u32_at(plan.order, bytes, end) == plan.total {
        return Ok(walk.behind(plan));
    }
    Err(NgBad::BadBlock {
        offset: walk.place(),
        length: plan.total,
    })
}

/// Where the captured bytes of a packet stand in its block.
pub fn data_in(plan: &Plan) -> Option<Data>
    ensures { result ≡ data_of plan.now.body }
{
    match plan.body {
        Body::Packet {
            at,
            captured,
            original,
        } => Some(Data {
            at,
            captured,
            original,
        }),
        Body::Section => None,
        Body::Interface { .. } => None,
        Body::Passed => None,
    }
}
