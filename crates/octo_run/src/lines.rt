ghost use Rattle.std.specs.Prelude.{◌≡◌, ◌<◌, ◌≤◌, ◌+◌, ◌++◌, length};
ghost use Rattle.octo_run.specs.Faults.{TellsLine, bad_text, fault_line, fault_text, hex8, ng_text, pcap_text, status_of};

use crate::faults::Fault;
use capture_load::Refusal;
use flow_base::{Sink, Status};
use octo_text::Line;
use packet_key::hex_digit;
use pcap_read::Bad;
use pcapng_read::NgBad;

/// Writes the fault's line, and answers its status. A fault of the sink is ignored.
#[tactic(auto, unfolding(crate::specs::Faults::fault_line))]
pub fn tell<E: Sink>(err: &mut E, fault: &Fault) -> Status
    ensures status { result ≡ status_of fault.now }
    ensures line { TellsLine (E.holds err.old) (E.holds err.new) (E.faults err.old) (E.faults err.new) (fault_line fault.now) }
    ensures later { E.faults err.old ≤ E.faults err.new }
{
    let mut line = Line::new();
    put_fault(&mut line, fault);
    let _ = line.send(err);
    fault.status()
}

#[tactic(auto, unfolding(crate::specs::Faults::fault_text))]
fn put_fault(line: &mut Line, fault: &Fault)
    requires { length line.old ≤ 0 }
    ensures text { line.new ≡ line.old ++ fault_text fault.now }
    ensures room { length line.new ≤ 300 }
{
    match fault {
        Fault::Usage => line.text(b"octo: usage"),
        Fault::ReadFault => line.text(b"octo: read fault"),
        Fault::WriteFault => line.text(b"octo: write fault"),
        Fault::Bad(refusal) => put_bad(line, *refusal),
        Fault::BadLine { line: number } => {
            line.named(b"octo: bad capture 12 line ", u64::from(*number));
        }
        Fault::NoMemory => line.text(b"octo: no memory"),
        Fault::Differs {
            line: number,
            kept,
            lawful,
        } => {
            line.named(b"octo: differs line ", u64::from(*number));
            line.text(b" kept ");
            line.text(kept.as_bytes());
            line.text(b" lawful ");
            line.text(lawful.as_bytes());
        }
    }
}

#[tactic(auto, unfolding(crate::specs::Faults::bad_text))]
fn put_bad(line: &mut Line, refusal: Refusal)
    requires { length line.old ≤ 0 }
    ensures text { line.new ≡ line.old ++ bad_text refusal }
    ensures room { length line.new ≤ 300 }
{
    match refusal {
        Refusal::Pcap(bad) => put_pcap(line, bad),
        Refusal::Ng(bad) => put_ng(line, bad),
    }
}

#[tactic(auto, unfolding(crate::specs::Faults::pcap_text))]
fn put_pcap(line: &mut Line, bad: Bad)
    requires { length line.old ≤ 0 }
    ensures text { line.new ≡ line.old ++ pcap_text bad }
    ensures room { length line.new ≤ 300 }
{
    match bad {
        Bad::ShortHeader { len } => line.named(b"octo: bad capture 1 length ", u64::from(len)),
        Bad::UnknownMagic { magic } => {
            line.text(b"octo: bad capture 2 magic ");
            put_hex(line, magic);
        }
        Bad::PcapNg => line.text(b"octo: bad capture 3 pcapng"),
        Bad::BadVersion { major, minor } => {
            line.named(b"octo: bad capture 4 version ", u64::from(major));
            line.named(b".", u64::from(minor));
        }
        Bad::NotEthernet { link } => line.named(b"octo: bad capture 5 link ", u64::from(link)),
        Bad::TooLong { offset, length } => {
            line.named(b"octo: bad capture 6 offset ", offset);
            line.named(b" length ", u64::from(length));
        }
        Bad::TooMany => line.text(b"octo: too many records"),
    }
}

#[tactic(auto, unfolding(crate::specs::Faults::ng_text))]
fn put_ng(line: &mut Line, bad: NgBad)
    requires { length line.old ≤ 0 }
    ensures text { line.new ≡ line.old ++ ng_text bad }
    ensures room { length line.new ≤ 300 }
{
    match bad {
        NgBad::ShortSection { len } => line.named(b"octo: bad capture 8 length ", u64::from(len)),
        NgBad::BadOrder { magic } => {
            line.text(b"octo: bad capture 9 magic ");
            put_hex(line, magic);
        }
        NgBad::BadBlock { offset, length } => {
            line.named(b"octo: bad capture 10 offset ", offset);
            line.named(b" length ", u64::from(length));
        }
        NgBad::NoInterface { offset, number } => {
            line.named(b"octo: bad capture 11 offset ", offset);
            line.named(b" interface ", u64::from(number));
        }
        NgBad::BadVersion { major, minor } => put_pcap(line, Bad::BadVersion { major, minor }),
        NgBad::NotEthernet { link } => put_pcap(line, Bad::NotEthernet { link }),
        NgBad::TooLong { offset, length } => put_pcap(line, Bad::TooLong { offset, length }),
        NgBad::TooMany => put_pcap(line, Bad::TooMany),
    }
}

// A number in 8 lower-case hexadecimal digits.
#[tactic(auto, unfolding(crate::specs::Faults::hex8))]
fn put_hex(line: &mut Line, number: u32)
    requires { length line.old + 8 ≤ 1024 }
    ensures text { line.new ≡ line.old ++ hex8 number }
    ensures room { length line.new ≤ length line.old + 8 }
{
    let digits = [
        hex_digit(number / 0x10000000 % 16),
        hex_digit(number / 0x1000000 % 16),
        hex_digit(number / 0x100000 % 16),
        hex_digit(number / 0x10000 % 16),
        hex_digit(number / 0x1000 % 16),
        hex_digit(number / 0x100 % 16),
        hex_digit(number / 0x10 % 16),
        hex_digit(number % 16),
    ];
    line.text(&digits);
}
