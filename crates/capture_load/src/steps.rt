ghost use Rattle.std.specs.Prelude.{◌≡◌, ◌<◌, ◌≤◌, ◌+◌, ◌++◌, ℕ, List, length, take, IfOk, OnOk, MatchResult};
ghost use Rattle.pcap_read.specs.Records.{Framed};
ghost use Rattle.capture_load.specs.Loads.{IsCounted, NgNoted, NgStops, PcapNoted, PcapStops, bytes_taken, most_bytes};
ghost use Rattle.capture_load.specs.Notes.{number_of};
ghost use Rattle.capture_load.specs.declared.capture.LoadStop.{LoadStop};
ghost use Rattle.capture_load.specs.declared.format.Format.{Format};
ghost use Rattle.capture_load.specs.declared.notes.Notes.{Notes};

use crate::LoadStop;
use crate::notes::Notes;
use pcap_read::Reader;
use pcapng_read::NgReader;

/// A reader of one of the formats, which lends the frames of a capture one after the other.
pub trait Frames {
    // it has taken these bytes and lent these frames, and they are noted
    ghost noted: { Self → Notes → List ℕ → List Framed → Type 0 };
    // as many frames were noted as it counts
    ghost counted: { Self → ℕ → Type 0 };
    // how many bytes it has taken
    ghost bytes: { Self → ℕ };
    // why it stops in these bytes
    ghost stops: { List ℕ → LoadStop → Type 0 };

    /// Takes bytes of a capture, up to the end of the first frame that becomes whole, and notes it.
    fn step(&mut self, notes: &mut Notes, piece: &[u8]) -> Result<usize, LoadStop>
        requires counted { counted self.old (number_of notes.old) }
        requires piece { 0 < length piece.now }
        ensures stepped { (bytes : List ℕ) (frames : List Framed) → noted self.old notes.old bytes frames →
            MatchResult result
            (λ used. (more : List Framed) × noted self.new notes.new (bytes ++ take used piece.now) (frames ++ more))
            (stops (bytes ++ piece.now)) }
        ensures some { IfOk result (λ used. 0 < used) }
        ensures bound { IfOk result (λ used. used ≤ length piece.now) }
        ensures counted { OnOk result (counted self.new (number_of notes.new)) }
        ensures bytes { IfOk result (λ used. bytes self.new ≡ bytes self.old + used) }
        ensures most { OnOk result (bytes self.new ≤ most_bytes) }
        ensures amount { notes.new.amount ≡ notes.old.amount };
}

/// Takes the whole piece. One loop a format: the format is told apart once a piece, and the step
/// stands in the loop.
pub fn take_all<F: Frames>(
    reader: &mut F,
    notes: &mut Notes,
    piece: &[u8],
) -> Result<usize, LoadStop>
    requires counted { F.counted reader.old (number_of notes.old) }
    requires piece { 0 < length piece.now }
    ensures stepped { (bytes : List ℕ) (frames : List Framed) → F.noted reader.old notes.old bytes frames →
        MatchResult result
        (λ used. (more : List Framed) × F.noted reader.new notes.new (bytes ++ take used piece.now) (frames ++ more))
        (F.stops (bytes ++ piece.now)) }
    ensures some { IfOk result (λ used. 0 < used) }
    ensures bound { IfOk result (λ used. used ≤ length piece.now) }
    ensures counted { OnOk result (F.counted reader.new (number_of notes.new)) }
    ensures bytes { IfOk result (λ used. F.bytes reader.new ≡ F.bytes reader.old + used) }
    ensures most { OnOk result (F.bytes reader.new ≤ most_bytes) }
    ensures amount { notes.new.amount ≡ notes.old.amount }
{
    let mut at = 0;
    while at < piece.len() {
        match reader.step(notes, &piece[at..]) {
            Err(stop) => return Err(stop),
            Ok(used) => at += used,
        }
    }
    Ok(at)
}

impl Frames for Reader {
    ghost noted = { PcapNoted };

    ghost counted = { λ reader. IsCounted (Format.Pcap reader) };

    ghost bytes = { λ reader. reader.bytes };

    ghost stops = { PcapStops };

    #[inline(always)]
    fn step(&mut self, notes: &mut Notes, piece: &[u8]) -> Result<usize, LoadStop> {
        match self.take_at_front(piece) {
            None => take_pcap(self, notes, piece),
            Some(front) => match notes.note(front.frame.original, front.frame.bytes) {
                Err(_) => Err(LoadStop::NoMemory),
                Ok(()) => Ok(front.used),
            },
        }
    }
}

// The same, where the record may begin before the piece or end behind it.
fn take_pcap(reader: &mut Reader, notes: &mut Notes, piece: &[u8]) -> Result<usize, LoadStop>
    requires counted { IsCounted (Format.Pcap reader.old) (number_of notes.old) }
    requires piece { 0 < length piece.now }
    ensures stepped { (bytes : List ℕ) (frames : List Framed) → PcapNoted reader.old notes.old bytes frames →
        MatchResult result
        (λ used. (more : List Framed) × PcapNoted reader.new notes.new (bytes ++ take used piece.now) (frames ++ more))
        (PcapStops (bytes ++ piece.now)) }
    ensures some { IfOk result (λ used. 0 < used) }
    ensures bound { IfOk result (λ used. used ≤ length piece.now) }
    ensures counted { OnOk result (IsCounted (Format.Pcap reader.new) (number_of notes.new)) }
    ensures bytes { IfOk result (λ used. reader.new.bytes ≡ reader.old.bytes + used) }
    ensures most { OnOk result (reader.new.bytes ≤ most_bytes) }
    ensures amount { notes.new.amount ≡ notes.old.amount }
{
    match reader.take(piece) {
        Err(bad) => Err(LoadStop::Bad(bad)),
        Ok(taken) => {
            if !taken.whole {
                return Ok(taken.used);
            }
            let frame = reader.lent();
            match notes.note(frame.original, frame.bytes) {
                Err(_) => Err(LoadStop::NoMemory),
                Ok(()) => Ok(taken.used),
            }
        }
    }
}

impl Frames for NgReader {
    ghost noted = { NgNoted };

    ghost counted = { λ reader. IsCounted (Format.Ng reader) };

    ghost bytes = { λ reader. bytes_taken (Format.Ng reader) };

    ghost stops = { NgStops };

    #[inline(always)]
    fn step(&mut self, notes: &mut Notes, piece: &[u8]) -> Result<usize, LoadStop> {
        match self.take_at_front(piece) {
            None => take_ng(self, notes, piece),
            Some(front) => match notes.note(front.frame.original, front.frame.bytes) {
                Err(_) => Err(LoadStop::NoMemory),
                Ok(()) => Ok(front.used),
            },
        }
    }
}

// The same, where the block may begin before the piece, end behind it, or have no packet.
fn take_ng(reader: &mut NgReader, notes: &mut Notes, piece: &[u8]) -> Result<usize, LoadStop>
    requires counted { IsCounted (Format.Ng reader.old) (number_of notes.old) }
    requires piece { 0 < length piece.now }
    ensures stepped { (bytes : List ℕ) (frames : List Framed) → NgNoted reader.old notes.old bytes frames →
        MatchResult result
        (λ used. (more : List Framed) × NgNoted reader.new notes.new (bytes ++ take used piece.now) (frames ++ more))
        (NgStops (bytes ++ piece.now)) }
    ensures some { IfOk result (λ used. 0 < used) }
    ensures bound { IfOk result (λ used. used ≤ length piece.now) }
    ensures counted { OnOk result (IsCounted (Format.Ng reader.new) (number_of notes.new)) }
    ensures bytes { IfOk result (λ used. bytes_taken (Format.Ng reader.new) ≡ bytes_taken (Format.Ng reader.old) + used) }
    ensures most { OnOk result (bytes_taken (Format.Ng reader.new) ≤ most_bytes) }
    ensures amount { notes.new.amount ≡ notes.old.amount }
{
    match reader.take(piece) {
        Err(bad) => Err(LoadStop::Ng(bad)),
        Ok(taken) => {
            if !taken.packet {
                return Ok(taken.used);
            }
            let frame = reader.lent();
            match notes.note(frame.original, frame.bytes) {
                Err(_) => Err(LoadStop::NoMemory),
                Ok(()) => Ok(taken.used),
            }
        }
    }
}
