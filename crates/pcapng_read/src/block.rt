ghost use Rattle.std.specs.Prelude.{◌≡◌, ◌≢◌, ◌≤◌, ◌<◌, ◌+◌, ◌*◌, ◌%◌};
ghost use Rattle.pcapng_read.specs.Blocks.{walk_past, keep_of, told_offset};
ghost use Rattle.pcapng_read.specs.Plans.{HasRoom, HasRoomForBlock, IsSoundPlan};

use crate::NgBad;
use pcap_read::Order;

/// What stands in front of a block.
#[derive(Clone, Copy, Debug)]
pub struct Walk {
    /// The order of the section's numbers; none before the first section.
    pub order: Option<Order>,
    /// How many interfaces the section has so far.
    pub interfaces: u32,
    /// The snapshot length of the first of them.
    pub snapshot: u32,
    pub packets: u32,
    /// How many blocks were no packets.
    pub others: u32,
    pub offset: u128,
}

// How many interfaces a section begins with.
const AT_FIRST: u32 = 0;

/// Nothing stands in front of the first block.
pub const START: Walk = Walk {
    order: None,
    interfaces: 0,
    snapshot: 0,
    packets: 0,
    others: 0,
    offset: 0,
};

/// What a block's first bytes tell of it.
#[derive(Clone, Copy, Debug)]
pub struct Plan {
    pub order: Order,
    pub total: u32,
    pub body: Body,
}

/// What a block has.
#[derive(Clone, Copy, Debug)]
pub enum Body {
    Section,
    Interface {
        snapshot: u32,
    },
    /// The place of the captured bytes, their number, and the packet's.
    Packet {
        at: u32,
        captured: u32,
        original: u32,
    },
    Passed,
}

/// What is known from the bytes of a block that have come.
#[derive(Clone, Copy, Debug)]
pub enum Judged {
    /// So many bytes of the block tell more.
    Waits { count: u32 },
    Refused { bad: NgBad },
    Known { plan: Plan },
}

impl Plan {
    /// How many bytes at the block's front are kept.
    pub fn keep(&self) -> u32
        requires { keep_of self.now < 4294967296 }
        ensures { result ≡ keep_of self.now }
    {
        match self.body {
            Body::Section => 16,
            Body::Interface { .. } => 16,
            Body::Packet { at, captured, .. } => at + captured,
            Body::Passed => 8,
        }
    }
}

impl Walk {
    /// The block's offset, in 64 bits.
    pub fn place(&self) -> u64
        ensures { result ≡ told_offset self.now }
    {
        (self.offset % 18446744073709551616) as u64
    }

    /// What stands in front of the next block.
    pub fn behind(&self, plan: &Plan) -> Walk
        requires counted { HasRoomForBlock self.now }
        requires room { HasRoom self.now plan.now }
        ensures behind { result ≡ walk_past self.now plan.now }
        ensures counted { HasRoomForBlock result }
    {
        let offset = self.offset + u128::from(plan.total);
        let order = Some(plan.order);
        match plan.body {
            Body::Section => Walk {
                order,
                interfaces: AT_FIRST,
                snapshot: 0,
                packets: self.packets,
                others: self.others + 1,
                offset,
            },
            Body::Interface { snapshot } => Walk {
                order,
                interfaces: self.interfaces + 1,
                snapshot: if self.interfaces == 0 {
                    snapshot
                } else {
                    self.snapshot
                },
                packets: self.packets,
                others: self.others + 1,
                offset,
            },
            Body::Packet { .. } => Walk {
                order,
                interfaces: self.interfaces,
                snapshot: self.snapshot,
                packets: self.packets + 1,
                others: self.others,
                offset,
            },
            Body::Passed => Walk {
                order,
                interfaces: self.interfaces,
                snapshot: self.snapshot,
                packets: self.packets,
                others: self.others + 1,
                offset,
            },
        }
    }
}
