ghost use Rattle.std.specs.Prelude.{◌≡◌, ◌≤◌, ◌<◌, ◌+◌, ◌-◌, ◌++◌, length, take, drop, Some, IfOk};
ghost use Rattle.capture_load.specs.Generated.{flow_of, generated, generated_record, ip_header, length_of, port_bytes, protocol_of_flow, record_header};

use flow_base::{Failed, Source};
use hash_rows::mix64;
use packet_key::put;

const FILE_HEADER: [u8; 24] = [
    0xd4, 0xc3, 0xb2, 0xa1, 2, 0, 4, 0, 0, 0, 0, 0, 0, 0, 0, 0, 0xff, 0xff, 0, 0, 1, 0, 0, 0,
];

/// A source of the generated capture. It never fails, tells what is left and takes no memory.
#[derive(Drop)]
pub struct GenSource {
    start: u32,
    /// The records that are not begun.
    ahead: u32,
    /// The number of the next of these.
    next: u32,
    /// What is being given, a header or a record.
    part: [u8; 58],
    at: usize,
    end: usize,
    ghost within: { at ≤ end },
    ghost inside: { end ≤ 58 },
    ghost numbers: { next + ahead < 4294967296 },
}

impl GenSource {
    ghost use Rattle.capture_load.specs.Sources.{left_of};

    /// The generated capture of so many records, from which `start` draws the fields.
    pub fn new(records: u32, start: u32) -> GenSource
        ensures { left_of result ≡ generated records start }
    {
        let mut part = [0u8; 58];
        let end = put(&mut part, 0, &FILE_HEADER);
        GenSource {
            start,
            ahead: records,
            next: 0,
            part,
            at: 0,
            end,
        }
    }

    // Begins the next record where one is there and all of the part before it was given.
    fn turn(&mut self)
        ensures left { left_of self.new ≡ left_of self.old }
        ensures some { self.new.at ≡ self.new.end → self.new.ahead ≡ 0 }
    {
        if self.at == self.end && 0 < self.ahead {
            put_record(&mut self.part, self.start, self.next);
            self.at = 0;
            self.end = 58;
            self.ahead -= 1;
            self.next += 1;
        }
    }

    // Gives bytes of the part.
    fn give(&mut self, buf: &mut [u8]) -> usize
        requires buf { 0 < length buf.old }
        ensures bound { result ≤ length buf.new }
        ensures given { left_of self.old ≡ take result buf.new ++ left_of self.new }
        ensures none { result ≡ 0 → self.old.at ≡ self.old.end }
        ensures some { self.old.at ≡ self.old.end → result ≡ 0 }
    {
        let count = (self.end - self.at).min(buf.len());
        let behind = self.at + count;
        put(buf, 0, &self.part[self.at..behind]);
        self.at = behind;
        count
    }
}

impl Source for GenSource {
    ghost use Rattle.capture_load.specs.Sources.{left_of};

    ghost left = { λ source. Some (left_of source) };

    ghost faults = { λ _. 0 };

    fn read(&mut self, buf: &mut [u8]) -> Result<usize, Failed> {
        self.turn();
        Ok(self.give(buf))
    }
}

// Writes record i.
#[tactic(auto, unfolding(crate::specs::Generated::generated_record, crate::specs::Generated::drawn))]
fn put_record(part: &mut [u8; 58], start: u32, i: u32)
    requires { i < 4294967295 }
    ensures bytes { part.new ≡ generated_record start i }
    ensures whole { length part.new ≡ 58 }
{
    let step = u64::from(i + 1).wrapping_mul(0x9E3779B97F4A7C15);
    let x = mix64(u64::from(start).wrapping_add(step));
    let at = put_record_header(part, i, x);
    let at = put(part, at, &[2, 0, 0, 0, 0, 2, 2, 0, 0, 0, 0, 1, 8, 0]);
    let at = put_ip_header(part, at, x);
    put_ports(part, at, x);
}

// Writes seconds, fraction, captured and original length at the front.
#[tactic(auto, unfolding(crate::specs::Generated::record_header))]
fn put_record_header(part: &mut [u8], i: u32, x: u64) -> usize
    requires { 16 ≤ length part.old }
    ensures end { result ≡ 16 }
    ensures front { take 16 part.new ≡ record_header i x }
{
    let at = put(part, 0, &(i / 1000).to_le_bytes());
    let at = put(part, at, &(i % 1000 * 1000).to_le_bytes());
    let at = put(part, at, &42u32.to_le_bytes());
    put(part, at, &original_length(x).to_le_bytes())
}

fn original_length(x: u64) -> u32
    ensures exact { result ≡ length_of x }
    ensures short { result < 1460 }
{
    60 + ((x >> 32) % 1400) as u32
}

// One of 256 flows.
fn flow(x: u64) -> u8
    ensures { result ≡ flow_of x }
{
    ((x % 256) & ((x >> 8) % 256)) as u8
}

// TCP or UDP.
fn protocol(flow: u8) -> u8
    ensures { result ≡ protocol_of_flow flow }
{
    if flow % 2 == 0 { 6 } else { 17 }
}

// Writes the IPv4 header.
#[tactic(auto, unfolding(crate::specs::Generated::ip_header))]
fn put_ip_header(part: &mut [u8], at: usize, x: u64) -> usize
    requires { at + 20 ≤ length part.old }
    ensures end { result ≡ at + 20 }
    ensures front { take result part.new ≡ take at part.old ++ ip_header x }
{
    let flow = flow(x);
    let target = ((x >> 16) % 4) as u8;
    let total = (original_length(x) - 14) as u16;
    let at = put(part, at, &[0x45, 0]);
    let at = put(part, at, &total.to_be_bytes());
    let fields = [
        0,
        0,
        0,
        0,
        0x40,
        protocol(flow),
        0,
        0,
        10,
        0,
        0,
        flow,
        10,
        0,
        1,
        target,
    ];
    put(part, at, &fields)
}

// Writes the ports, and four bytes more.
#[tactic(auto, unfolding(crate::specs::Generated::port_bytes))]
fn put_ports(part: &mut [u8], at: usize, x: u64) -> usize
    requires { at + 8 ≤ length part.old }
    ensures end { result ≡ at + 8 }
    ensures front { take result part.new ≡ take at part.old ++ port_bytes x }
{
    let at = put(part, at, &(1024 + u16::from(flow(x))).to_be_bytes());
    put(part, at, &[0x01, 0xbb, 0, 0, 0, 0])
}
