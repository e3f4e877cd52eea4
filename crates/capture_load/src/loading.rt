ghost use Rattle.std.specs.Prelude.{◌≡◌, ◌≢◌, ◌<◌, ◌≤◌, ◌+◌, ◌++◌, ℕ, List, length, take, slice_index, IfOk, OnOk, MatchResult};
ghost use Rattle.pcap_read.specs.Records.{Framed};
ghost use Rattle.capture_load.specs.Loads.{Counts, Loads, StopsIn, bytes_taken, most_bytes};
ghost use Rattle.capture_load.specs.declared.format.Format.{Format};
ghost use Rattle.capture_load.specs.Capture.{ng_magic};

use crate::LoadStop;
use crate::format::{Format, MAGIC, ng_reader, pcap_reader};
use crate::notes::Notes;
use crate::steps::take_all;
use std::alloc::Global;

/// A capture while it is read.
#[derive(Drop)]
pub struct Loading {
    pub format: Format,
    pub notes: Notes,
}

impl Loading {
    /// Takes the whole piece.
    pub fn feed(&mut self, alloc: Global, piece: &[u8]) -> Result<(), LoadStop>
        requires { Counts self.old }
        ensures fed { (bytes : List ℕ) (frames : List Framed) → Loads self.old bytes frames →
            MatchResult result
            (λ _. (more : List Framed) × Loads self.new (bytes ++ piece.now) (frames ++ more))
            (StopsIn (bytes ++ piece.now)) }
        ensures counts { OnOk result (Counts self.new) }
        ensures bytes { OnOk result (bytes_taken self.new.format ≡ bytes_taken self.old.format + length piece.now) }
        ensures most { OnOk result (0 < length piece.now → bytes_taken self.new.format ≤ most_bytes) }
        ensures amount { self.new.notes.amount ≡ self.old.notes.amount }
    {
        let mut at = 0;
        while at < piece.len() {
            match self.step(alloc, &piece[at..]) {
                Err(stop) => return Err(stop),
                Ok(used) => at += used,
            }
        }
        Ok(())
    }

    // Takes bytes of the piece, up to the end of the first record or packet that becomes whole.
    fn step(&mut self, alloc: Global, piece: &[u8]) -> Result<usize, LoadStop>
        requires counts { Counts self.old }
        requires piece { 0 < length piece.now }
        ensures stepped { (bytes : List ℕ) (frames : List Framed) → Loads self.old bytes frames →
            MatchResult result
            (λ used. (more : List Framed) × Loads self.new (bytes ++ take used piece.now) (frames ++ more))
            (StopsIn (bytes ++ piece.now)) }
        ensures some { IfOk result (λ used. 0 < used) }
        ensures bound { IfOk result (λ used. used ≤ length piece.now) }
        ensures counts { OnOk result (Counts self.new) }
        ensures bytes { IfOk result (λ used. bytes_taken self.new.format ≡ bytes_taken self.old.format + used) }
        ensures most { OnOk result (bytes_taken self.new.format ≤ most_bytes) }
        ensures amount { self.new.notes.amount ≡ self.old.notes.amount }
    {
        match &mut self.format {
            Format::Open(matched) => {
                let matched = *matched;
                self.open(alloc, matched, piece)
            }
            Format::Pcap(reader) => take_all(reader, &mut self.notes, piece),
            Format::Ng(reader) => take_all(reader, &mut self.notes, piece),
        }
    }

    // Judges the next of the first four bytes. Where one differs the capture is of libpcap's
    // format; where none does it is pcapng.
    fn open(&mut self, alloc: Global, matched: usize, piece: &[u8]) -> Result<usize, LoadStop>
        requires open { self.old.format ≡ Format.Open matched }
        requires counts { Counts self.old }
        requires piece { 0 < length piece.now }
        ensures stepped { (bytes : List ℕ) (frames : List Framed) → Loads self.old bytes frames →
            MatchResult result
            (λ used. (more : List Framed) × Loads self.new (bytes ++ take used piece.now) (frames ++ more))
            (StopsIn (bytes ++ piece.now)) }
        ensures some { IfOk result (λ used. 0 < used) }
        ensures bound { IfOk result (λ used. used ≤ length piece.now) }
        ensures counts { OnOk result (Counts self.new) }
        ensures bytes { IfOk result (λ used. bytes_taken self.new.format ≡ bytes_taken self.old.format + used) }
        ensures most { OnOk result (bytes_taken self.new.format ≤ most_bytes) }
        ensures amount { self.new.notes.amount ≡ self.old.notes.amount }
    {
        if piece[0] != MAGIC[matched] {
            return self.open_pcap(alloc, matched, piece);
        }
        if matched < 3 {
            self.format = Format::Open(matched + 1);
            return Ok(1);
        }
        match ng_reader(alloc) {
            Err(_) => Err(LoadStop::NoMemory),
            Ok(reader) => {
                self.format = Format::Ng(reader);
                Ok(1)
            }
        }
    }

    // The same, where the next byte differs.
    fn open_pcap(&mut self, alloc: Global, matched: usize, piece: &[u8]) -> Result<usize, LoadStop>
        requires open { self.old.format ≡ Format.Open matched }
        requires counts { Counts self.old }
        requires piece { 0 < length piece.now }
        requires differs { slice_index piece.now 0 ≢ slice_index ng_magic matched }
        ensures stepped { (bytes : List ℕ) (frames : List Framed) → Loads self.old bytes frames →
            MatchResult result
            (λ used. (more : List Framed) × Loads self.new (bytes ++ take used piece.now) (frames ++ more))
            (StopsIn (bytes ++ piece.now)) }
        ensures some { IfOk result (λ used. 0 < used) }
        ensures bound { IfOk result (λ used. used ≤ length piece.now) }
        ensures counts { OnOk result (Counts self.new) }
        ensures bytes { IfOk result (λ used. bytes_taken self.new.format ≡ bytes_taken self.old.format + used) }
        ensures most { OnOk result (bytes_taken self.new.format ≤ most_bytes) }
        ensures amount { self.new.notes.amount ≡ self.old.notes.amount }
    {
        match pcap_reader(alloc, matched) {
            Err(_) => Err(LoadStop::NoMemory),
            Ok(reader) => {
                let mut reader = reader;
                let result = take_all(&mut reader, &mut self.notes, piece);
                self.format = Format::Pcap(reader);
                result
            }
        }
    }
}
