ghost use Rattle.std.specs.Prelude.{◌≡◌, ◌≢◌, ◌≤◌, ◌<◌, ◌+◌, ◌*◌, ℕ, List, [], ◌++◌, length, Some, None, IfOk, IfErr, IfNone, IfSome, OnOk, IsSome, true, false, take, drop, Err, Ok};

use crate::block::START;
use crate::judge::judge;
use crate::parts::{closed, data_in, take_part};
use crate::{Judged, NgBad, Plan, Walk};
use flow_base::NoMemory;
use pcap_read::fill;
use std::alloc::Global;
use std::marker::Model;

/// How many bytes of a piece were taken, and whether a packet's block ended with them.
#[derive(Clone, Copy, Debug, PartialEq, Eq)]
pub struct NgTaken {
    pub used: usize,
    pub packet: bool,
}

/// A packet's captured bytes, and how many it had.
#[derive(Clone, Copy, Debug)]
pub struct NgFrame<'a> {
    pub original: u32,
    pub bytes: &'a [u8],
}

/// A packet whose block stands whole at the front of a piece, and how many bytes the block has.
#[derive(Clone, Copy, Debug)]
pub struct NgFront<'a> {
    pub used: usize,
    pub frame: NgFrame<'a>,
}

/// Where the captured bytes of a packet are held.
#[derive(Clone, Copy, Debug)]
pub struct Data {
    pub at: u32,
    pub captured: u32,
    pub original: u32,
}

// The front of a packet's block, the most captured bytes and the last four.
const ROOM: usize = 262176;

/// A reader of a pcapng capture that comes in pieces, however it is cut. It keeps what it needs of
/// the unfinished block, or the packet that can be lent. A refusal is kept for good.
#[derive(Drop)]
pub struct NgReader {
    limit: u32,
    walk: Walk,
    judged: Judged,
    /// How many bytes of the block have come.
    seen: u32,
    held: Vec<u8>,
    packet: Option<Data>,
}

impl Model for NgReader {
    ghost use Rattle.pcapng_read.specs.View.{NgReaderView};

    ghost Value = { NgReaderView };

    ghost use Rattle.pcapng_read.specs.Inside.{view_of, IsSound};

    ghost view = { view_of };

    ghost invariant = { IsSound };
}

impl NgReader {
    ghost use Rattle.pcap_read.specs.Records.{Framed};
    ghost use Rattle.pcapng_read.specs.Capture.{NgCaptureOf, RefusesNext};
    ghost use Rattle.pcapng_read.specs.Blocks.{judged};
    ghost use Rattle.pcapng_read.specs.Plans.{IsSoundPlan};
    ghost use Rattle.pcapng_read.specs.View.{Stands, start_of, refused_at};
    ghost use Rattle.pcapng_read.specs.Takes.{GoesBehind, GoesOn, IsGoing, StepsOn, Takes, TakesBytes, TakesFront, end_in, end_of, outcome_of, taken_by};
    ghost use Rattle.pcapng_read.specs.declared.bad.NgBad.{NgBad};

    /// A reader that has taken nothing, with room for one packet. `limit` is the greatest number
    /// of packets, and of other blocks.
    pub fn new(alloc: Global, limit: u32) -> Result<NgReader, NoMemory>
        ensures view { IfOk result (λ reader. reader ≡ start_of limit) }
        ensures start { IfOk result (λ reader. Stands reader [] []) }
    {
        match Vec::with_capacity(alloc, ROOM) {
            Ok(held) => Ok(NgReader {
                limit,
                walk: START,
                judged: Judged::Waits { count: 4 },
                seen: 0,
                held,
                packet: None,
            }),
            Err(_) => Err(NoMemory),
        }
    }

    // Lets the lent packet go.
    fn forget(&mut self)
        ensures { self.new ≡ record self.old { lent = None } }
    {
        if self.packet.is_some() {
            self.held.clear();
            self.packet = None;
        }
    }

    /// At the end of input, how many bytes stand behind the last whole block. A section's header
    /// that isn't whole is refused where no block is.
    pub fn end(&self) -> Result<u32, NgBad>
        ensures view { result ≡ end_of self.now }
        ensures outcome { (bytes : List ℕ) (frames : List Framed) → Stands self.now bytes frames →
            NgCaptureOf self.now.limit bytes (outcome_of frames result) }
    {
        match self.judged {
            Judged::Refused { bad } => Err(bad),
            Judged::Waits { .. } => self.rest(),
            Judged::Known { .. } => self.rest(),
        }
    }

    // The same, where nothing was refused.
    fn rest(&self) -> Result<u32, NgBad>
        ensures { result ≡ end_in self.now.seen self.now.walk.order }
    {
        match self.walk.order {
            None => Err(NgBad::ShortSection { len: self.seen }),
            Some(_) => Ok(self.seen),
        }
    }

    /// Lends the packet with whose block the last `take` ended.
    pub fn lent(&self) -> NgFrame<'_>
        requires { IsSome self.now.lent }
        ensures { self.now.lent ≡ Some (record { original = result.original; bytes = result.bytes.now }) }
    {
        match self.packet {
            Some(place) => place.frame(&self.held),
            None => unreachable!(),
        }
    }

    /// Takes the packet whose block stands whole at the front of the piece, and lends it from there
    /// with no copy. Where it answers none, it took nothing, and `take` says what the piece holds.
    pub fn take_at_front<'a>(&mut self, piece: &'a [u8]) -> Option<NgFront<'a>>
        ensures front { IfSome result (λ front. TakesFront self.old self.new piece.now front.used
            (record { original = front.frame.original; bytes = front.frame.bytes.now })) }
        ensures on { IfSome result (λ front. GoesBehind self.old self.new piece.now front.used) }
        ensures none { IfNone result (self.new ≡ record self.old { lent = None }) }
        ensures stands { IfNone result ((bytes : List ℕ) (frames : List Framed) → Stands self.old bytes frames
            → Stands self.new bytes frames) }
        ensures limit { self.new.limit ≡ self.old.limit }
    {
        self.forget();
        if self.seen != 0 {
            return None;
        }
        match self.judged {
            Judged::Refused { .. } => None,
            Judged::Waits { .. } => self.take_whole(piece),
            Judged::Known { .. } => self.take_whole(piece),
        }
    }

    // The same, where no block is begun and no packet is lent.
    fn take_whole<'a>(&mut self, piece: &'a [u8]) -> Option<NgFront<'a>>
        requires going { IsGoing self.old.judged }
        requires seen { self.old.seen ≡ 0 }
        requires lent { self.old.lent ≡ None }
        ensures front { IfSome result (λ front. TakesFront self.old self.new piece.now front.used
            (record { original = front.frame.original; bytes = front.frame.bytes.now })) }
        ensures on { IfSome result (λ front. GoesBehind self.old self.new piece.now front.used) }
        ensures none { IfNone result (self.new ≡ self.old) }
        ensures limit { self.new.limit ≡ self.old.limit }
    {
        match judge(self.limit, &self.walk, piece) {
            Judged::Waits { .. } => None,
            Judged::Refused { .. } => None,
            Judged::Known { plan } => self.take_known(plan, piece),
        }
    }

    // The same, where the first bytes are those of such a block.
    fn take_known<'a>(&mut self, plan: Plan, piece: &'a [u8]) -> Option<NgFront<'a>>
        requires going { IsGoing self.old.judged }
        requires seen { self.old.seen ≡ 0 }
        requires lent { self.old.lent ≡ None }
        requires known { judged self.old.limit self.old.walk piece.now ≡ Judged.Known plan }
        requires sound { IsSoundPlan self.old.limit self.old.walk plan }
        ensures front { IfSome result (λ front. TakesFront self.old self.new piece.now front.used
            (record { original = front.frame.original; bytes = front.frame.bytes.now })) }
        ensures on { IfSome result (λ front. GoesBehind self.old self.new piece.now front.used) }
        ensures none { IfNone result (self.new ≡ self.old) }
        ensures limit { self.new.limit ≡ self.old.limit }
    {
        let place = data_in(&plan)?;
        let total = plan.total as usize;
        if piece.len() < total {
            return None;
        }
        match closed(&self.walk, &plan, piece, total - 4) {
            Err(_) => None,
            Ok(walk) => {
                self.walk = walk;
                self.judged = Judged::Waits { count: 8 };
                self.held.clear();
                Some(NgFront {
                    used: total,
                    frame: place.frame(piece),
                })
            }
        }
    }

    /// Takes bytes of the piece, up to the end of the first packet's block that becomes whole. A
    /// refusal is answered where the bytes before that end hold it.
    pub fn take(&mut self, piece: &[u8]) -> Result<NgTaken, NgBad>
        requires { 0 < length piece.now }
        ensures takes { Takes self.old self.new piece.now result }
        ensures exact { (bytes : List ℕ) (frames : List Framed) (bad : NgBad) → Stands self.old bytes frames →
            RefusesNext self.old.limit (bytes ++ piece.now) frames bad → result ≡ Err bad }
        ensures on { IfOk result (λ taken. GoesOn self.old self.new piece.now taken) }
        ensures some { IfOk result (λ taken. 0 < taken.used) }
        ensures limit { self.new.limit ≡ self.old.limit }
        ensures kept { IfErr result (λ bad. self.new ≡ refused_at self.old.limit bad) }
        ensures stays { (bad : NgBad) → self.old.judged ≡ Judged.Refused bad → (result ≡ Err bad) × (self.new ≡ self.old) }
    {
        if let Judged::Refused { bad } = self.judged {
            return Err(bad);
        }
        self.forget();
        self.take_blocks(piece)
    }

    // The same, where no packet is lent.
    fn take_blocks(&mut self, piece: &[u8]) -> Result<NgTaken, NgBad>
        requires going { IsGoing self.old.judged }
        requires lent { self.old.lent ≡ None }
        requires piece { 0 < length piece.now }
        ensures takes { Takes self.old self.new piece.now result }
        ensures on { IfOk result (λ taken. GoesOn self.old self.new piece.now taken) }
        ensures some { IfOk result (λ taken. 0 < taken.used) }
        ensures limit { self.new.limit ≡ self.old.limit }
        ensures kept { IfErr result (λ bad. self.new ≡ refused_at self.old.limit bad) }
    {
        let mut at = 0;
        while at < piece.len() {
            match self.step(&piece[at..]) {
                Err(bad) => return Err(bad),
                Ok(taken) => {
                    at += taken.used;
                    if taken.packet {
                        return Ok(NgTaken {
                            used: at,
                            packet: true,
                        });
                    }
                }
            }
        }
        Ok(NgTaken {
            used: at,
            packet: false,
        })
    }

    // Takes bytes of the piece, up to the next place in the block where something is decided.
    fn step(&mut self, piece: &[u8]) -> Result<NgTaken, NgBad>
        requires going { IsGoing self.old.judged }
        requires lent { self.old.lent ≡ None }
        requires piece { 0 < length piece.now }
        ensures takes { Takes self.old self.new piece.now result }
        ensures on { IfOk result (λ taken. StepsOn self.old self.new piece.now taken) }
        ensures kept { IfErr result (λ bad. self.new ≡ refused_at self.old.limit bad) }
    {
        match self.judged {
            Judged::Refused { bad } => Err(bad),
            Judged::Known { plan } => self.take_body(plan, piece),
            Judged::Waits { count } => match self.take_head(count, piece) {
                Err(bad) => Err(bad),
                Ok(used) => Ok(NgTaken {
                    used,
                    packet: false,
                }),
            },
        }
    }

    // Takes the first bytes of a block.
    fn take_head(&mut self, count: u32, piece: &[u8]) -> Result<usize, NgBad>
        requires waits { self.old.judged ≡ Judged.Waits count }
        requires lent { self.old.lent ≡ None }
        requires piece { 0 < length piece.now }
        ensures takes { TakesBytes self.old self.new piece.now result }
        ensures on { IfOk result (λ used. StepsOn self.old self.new piece.now (record { used = used; packet = false })) }
        ensures kept { IfErr result (λ bad. self.new ≡ refused_at self.old.limit bad) }
    {
        let used = fill(&mut self.held, piece, count as usize);
        match judge(self.limit, &self.walk, &self.held) {
            Judged::Refused { bad } => {
                self.walk = START;
                self.judged = Judged::Refused { bad };
                self.seen = 0;
                self.held.clear();
                Err(bad)
            }
            Judged::Waits { count } => {
                self.judged = Judged::Waits { count };
                self.seen += used as u32;
                Ok(used)
            }
            Judged::Known { plan } => {
                self.judged = Judged::Known { plan };
                self.seen += used as u32;
                Ok(used)
            }
        }
    }

    // Takes bytes of a block that is known.
    fn take_body(&mut self, plan: Plan, piece: &[u8]) -> Result<NgTaken, NgBad>
        requires known { self.old.judged ≡ Judged.Known plan }
        requires lent { self.old.lent ≡ None }
        requires piece { 0 < length piece.now }
        ensures takes { Takes self.old self.new piece.now result }
        ensures on { IfOk result (λ taken. StepsOn self.old self.new piece.now taken) }
        ensures kept { IfErr result (λ bad. self.new ≡ refused_at self.old.limit bad) }
    {
        let used = take_part(&plan, self.seen, &mut self.held, piece);
        let seen = self.seen + used as u32;
        if seen < plan.total {
            self.seen = seen;
            return Ok(NgTaken {
                used,
                packet: false,
            });
        }
        match closed(&self.walk, &plan, &self.held, plan.keep() as usize) {
            Err(bad) => {
                self.walk = START;
                self.judged = Judged::Refused { bad };
                self.seen = 0;
                self.held.clear();
                Err(bad)
            }
            Ok(walk) => {
                self.walk = walk;
                self.judged = Judged::Waits { count: 8 };
                self.seen = 0;
                match data_in(&plan) {
                    None => {
                        self.held.clear();
                        Ok(NgTaken {
                            used,
                            packet: false,
                        })
                    }
                    Some(place) => {
                        self.packet = Some(place);
                        Ok(NgTaken { used, packet: true })
                    }
                }
            }
        }
    }
}

impl Data {
    // The packet whose block these bytes begin.
    fn frame<'a>(&self, bytes: &'a [u8]) -> NgFrame<'a>
        requires { self.now.at + self.now.captured ≤ length bytes.now }
        ensures original { result.original ≡ self.now.original }
        ensures bytes { result.bytes.now ≡ take self.now.captured (drop self.now.at bytes.now) }
    {
        let behind = &bytes[self.at as usize..];
        NgFrame {
            original: self.original,
            bytes: &behind[..self.captured as usize],
        }
    }
}
