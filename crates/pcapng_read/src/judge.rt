ghost use Rattle.std.specs.Prelude.{◌≡◌, ◌≤◌, ◌<◌, ◌+◌, ℕ, length, Some, None};
ghost use Rattle.pcap_read.specs.Header.{number_at};
ghost use Rattle.pcapng_read.specs.Blocks.{block_judged, enhanced_judged, first_judged, interface_judged, is_length, judged, judged_in, link_judged, numbered_judged, packet_judged, padded, passed_judged, told_offset, section_in, section_judged, section_order, simple_captured, simple_in, simple_judged, version_judged};
ghost use Rattle.pcapng_read.specs.Plans.{Late, WantsMore};

use crate::{Body, Judged, NgBad, Plan, Walk};
use pcap_read::{MAX_CAPTURED, Order, u16_at, u32_at};

const SECTION_TYPE: u32 = 0x0a0d0d0a;

/// What the bytes of a block that have come tell of it.
pub fn judge(limit: u32, walk: &Walk, bytes: &[u8]) -> Judged
    ensures judged { result ≡ judged limit walk.now bytes.now }
    ensures wants { WantsMore (length bytes.now) result }
    ensures sound { Late limit walk.now 8 result }
{
    judge_in(limit, walk, bytes)
}

#[tactic(auto, unfolding(crate::specs::Blocks::judged_in))]
fn judge_in(limit: u32, walk: &Walk, bytes: &[u8]) -> Judged
    ensures judged { result ≡ judged limit walk.now bytes.now }
    ensures wants { WantsMore (length bytes.now) result }
{
    match walk.order {
        None => {
            if bytes.len() < 4 {
                return Judged::Waits { count: 4 };
            }
            first(limit, walk, bytes, u32_at(Order::Big, bytes, 0))
        }
        Some(order) => {
            if bytes.len() < 8 {
                return Judged::Waits { count: 8 };
            }
            block(limit, walk, order, bytes, u32_at(order, bytes, 0))
        }
    }
}

#[tactic(auto, unfolding(crate::specs::Blocks::first_judged))]
fn first(limit: u32, walk: &Walk, bytes: &[u8], kind: u32) -> Judged
    requires { 4 ≤ length bytes.now }
    ensures judged { result ≡ first_judged limit walk.now bytes.now kind }
    ensures wants { WantsMore (length bytes.now) result }
{
    if kind == SECTION_TYPE {
        if bytes.len() < 8 {
            return Judged::Waits { count: 8 };
        }
        return section(limit, walk, bytes);
    }
    Judged::Refused {
        bad: NgBad::BadOrder { magic: kind },
    }
}

#[tactic(auto, unfolding(crate::specs::Blocks::block_judged))]
fn block(limit: u32, walk: &Walk, order: Order, bytes: &[u8], kind: u32) -> Judged
    requires { 8 ≤ length bytes.now }
    ensures judged { result ≡ block_judged limit walk.now order bytes.now kind }
    ensures wants { WantsMore (length bytes.now) result }
{
    if kind == SECTION_TYPE {
        return section(limit, walk, bytes);
    }
    if kind == 1 {
        return interface(limit, walk, order, bytes);
    }
    if kind == 6 {
        return enhanced(limit, walk, order, bytes);
    }
    if kind == 3 {
        return simple(limit, walk, order, bytes);
    }
    passed(limit, walk, order, u32_at(order, bytes, 4))
}

#[tactic(auto, unfolding(crate::specs::Blocks::section_order))]
fn order_by(magic: u32) -> Option<Order>
    ensures { result ≡ section_order magic }
{
    match magic {
        0x4d3c2b1a => Some(Order::Little),
        0x1a2b3c4d => Some(Order::Big),
        _ => None,
    }
}

fn has_length(least: u32, total: u32) -> bool
    ensures { result ≡ is_length least total }
{
    least <= total && total % 4 == 0
}

fn bad_block(walk: &Walk, length: u32) -> Judged
    ensures { result ≡ Judged.Refused (NgBad.BadBlock (told_offset walk.now) length) }
{
    Judged::Refused {
        bad: NgBad::BadBlock {
            offset: walk.place(),
            length,
        },
    }
}

#[tactic(auto, unfolding(crate::specs::Blocks::section_judged))]
fn section(limit: u32, walk: &Walk, bytes: &[u8]) -> Judged
    requires { 8 ≤ length bytes.now }
    ensures judged { result ≡ section_judged limit walk.now bytes.now }
    ensures wants { WantsMore (length bytes.now) result }
{
    if walk.others == limit {
        return Judged::Refused {
            bad: NgBad::TooMany,
        };
    }
    if bytes.len() < 12 {
        return Judged::Waits { count: 12 };
    }
    section_by(walk, bytes, order_by(u32_at(Order::Big, bytes, 8)))
}

#[tactic(auto, unfolding(crate::specs::Blocks::section_in))]
fn section_by(walk: &Walk, bytes: &[u8], order: Option<Order>) -> Judged
    requires { 12 ≤ length bytes.now }
    ensures judged { result ≡ section_in walk.now bytes.now order }
    ensures wants { WantsMore (length bytes.now) result }
{
    match order {
        None => Judged::Refused {
            bad: NgBad::BadOrder {
                magic: u32_at(Order::Big, bytes, 8),
            },
        },
        Some(order) => {
            let total = u32_at(order, bytes, 4);
            if !has_length(28, total) {
                return bad_block(walk, total);
            }
            if bytes.len() < 16 {
                return Judged::Waits { count: 16 };
            }
            version(
                order,
                total,
                u16_at(order, bytes, 12),
                u16_at(order, bytes, 14),
            )
        }
    }
}

#[tactic(auto, unfolding(crate::specs::Blocks::version_judged))]
fn version(order: Order, total: u32, major: u16, minor: u16) -> Judged
    ensures judged { result ≡ version_judged order total major minor }
    ensures decided { (len : ℕ) → WantsMore len result }
{
    if !(major == 1) {
        return Judged::Refused {
            bad: NgBad::BadVersion { major, minor },
        };
    }
    Judged::Known {
        plan: Plan {
            order,
            total,
            body: Body::Section,
        },
    }
}

#[tactic(auto, unfolding(crate::specs::Blocks::interface_judged))]
fn interface(limit: u32, walk: &Walk, order: Order, bytes: &[u8]) -> Judged
    requires { 8 ≤ length bytes.now }
    ensures judged { result ≡ interface_judged limit walk.now order bytes.now }
    ensures wants { WantsMore (length bytes.now) result }
{
    if walk.others == limit {
        return Judged::Refused {
            bad: NgBad::TooMany,
        };
    }
    let total = u32_at(order, bytes, 4);
    if !has_length(20, total) {
        return bad_block(walk, total);
    }
    if bytes.len() < 16 {
        return Judged::Waits { count: 16 };
    }
    ethernet(
        order,
        total,
        u16_at(order, bytes, 8),
        u32_at(order, bytes, 12),
    )
}

#[tactic(auto, unfolding(crate::specs::Blocks::link_judged))]
fn ethernet(order: Order, total: u32, link: u16, snapshot: u32) -> Judged
    ensures judged { result ≡ link_judged order total link snapshot }
    ensures decided { (len : ℕ) → WantsMore len result }
{
    if !(link == 1) {
        return Judged::Refused {
            bad: NgBad::NotEthernet { link },
        };
    }
    Judged::Known {
        plan: Plan {
            order,
            total,
            body: Body::Interface { snapshot },
        },
    }
}

#[tactic(auto, unfolding(crate::specs::Blocks::enhanced_judged))]
fn enhanced(limit: u32, walk: &Walk, order: Order, bytes: &[u8]) -> Judged
    requires { 8 ≤ length bytes.now }
    ensures judged { result ≡ enhanced_judged limit walk.now order bytes.now }
    ensures wants { WantsMore (length bytes.now) result }
{
    if walk.packets == limit {
        return Judged::Refused {
            bad: NgBad::TooMany,
        };
    }
    let total = u32_at(order, bytes, 4);
    if !has_length(32, total) {
        return bad_block(walk, total);
    }
    if bytes.len() < 28 {
        return Judged::Waits { count: 28 };
    }
    let number = u32_at(order, bytes, 8);
    numbered(
        walk,
        order,
        total,
        number,
        u32_at(order, bytes, 20),
        u32_at(order, bytes, 24),
    )
}

#[tactic(auto, unfolding(crate::specs::Blocks::numbered_judged))]
fn numbered(
    walk: &Walk,
    order: Order,
    total: u32,
    number: u32,
    captured: u32,
    original: u32,
) -> Judged
    ensures judged { result ≡ numbered_judged walk.now order total number captured original }
    ensures decided { (len : ℕ) → WantsMore len result }
{
    if walk.interfaces <= number {
        return Judged::Refused {
            bad: NgBad::NoInterface {
                offset: walk.place(),
                number,
            },
        };
    }
    packet(walk, order, total, 28, captured, original)
}

#[tactic(auto, unfolding(crate::specs::Blocks::packet_judged))]
fn packet(walk: &Walk, order: Order, total: u32, at: u32, captured: u32, original: u32) -> Judged
    requires { at ≤ 28 }
    ensures judged { result ≡ packet_judged walk.now order total at captured original }
    ensures decided { (len : ℕ) → WantsMore len result }
{
    if captured > MAX_CAPTURED {
        return Judged::Refused {
            bad: NgBad::TooLong {
                offset: walk.place(),
                length: captured,
            },
        };
    }
    if total < at + 4 + (captured + 3) / 4 * 4 {
        return bad_block(walk, total);
    }
    Judged::Known {
        plan: Plan {
            order,
            total,
            body: Body::Packet {
                at,
                captured,
                original,
            },
        },
    }
}

#[tactic(auto, unfolding(crate::specs::Blocks::simple_judged))]
fn simple(limit: u32, walk: &Walk, order: Order, bytes: &[u8]) -> Judged
    requires { 8 ≤ length bytes.now }
    ensures judged { result ≡ simple_judged limit walk.now order bytes.now }
    ensures wants { WantsMore (length bytes.now) result }
{
    if walk.packets == limit {
        return Judged::Refused {
            bad: NgBad::TooMany,
        };
    }
    let total = u32_at(order, bytes, 4);
    if !has_length(16, total) {
        return bad_block(walk, total);
    }
    if bytes.len() < 12 {
        return Judged::Waits { count: 12 };
    }
    simple_by(walk, order, total, u32_at(order, bytes, 8))
}

#[tactic(auto, unfolding(crate::specs::Blocks::simple_in))]
fn simple_by(walk: &Walk, order: Order, total: u32, original: u32) -> Judged
    ensures judged { result ≡ simple_in walk.now order total original }
    ensures decided { (len : ℕ) → WantsMore len result }
{
    if walk.interfaces == 0 {
        return Judged::Refused {
            bad: NgBad::NoInterface {
                offset: walk.place(),
                number: 0,
            },
        };
    }
    packet(
        walk,
        order,
        total,
        12,
        captured_of(walk.snapshot, original),
        original,
    )
}

fn captured_of(snapshot: u32, original: u32) -> u32
    ensures { result ≡ simple_captured snapshot original }
{
    if snapshot == 0 {
        original
    } else {
        snapshot.min(original)
    }
}

#[tactic(auto, unfolding(crate::specs::Blocks::passed_judged))]
fn passed(limit: u32, walk: &Walk, order: Order, total: u32) -> Judged
    ensures judged { result ≡ passed_judged limit walk.now order total }
    ensures decided { (len : ℕ) → WantsMore len result }
{
    if walk.others == limit {
        return Judged::Refused {
            bad: NgBad::TooMany,
        };
    }
    if !has_length(12, total) {
        return bad_block(walk, total);
    }
    Judged::Known {
        plan: Plan {
            order,
            total,
            body: Body::Passed,
        },
    }
}
