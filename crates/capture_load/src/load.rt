ghost use Rattle.std.specs.Prelude.{◌≡◌, ◌≤◌, ℕ, [], List, IfOk, IfErr, OnOk, IsErrOf, MatchResult, length};
ghost use Rattle.flow_base.specs.Causes.{Rose};
ghost use Rattle.flow_base.specs.Flow.{Given, behind};
ghost use Rattle.flow_base.specs.LinesRead.{left_of};
ghost use Rattle.capture_load.specs.Capture.{RefusesNext};
ghost use Rattle.capture_load.specs.Loads.{Counts, EndsIn, HoldsRefusal, IsLoaded, Loads};
ghost use Rattle.capture_load.specs.declared.capture.Refusal.{Refusal};
ghost use Rattle.capture_load.specs.declared.format.Format.{Format};
ghost use Rattle.pcap_read.specs.declared.bad.Bad.{Bad};
ghost use Rattle.pcap_read.specs.Records.{Framed};
ghost use Rattle.hash_rows.specs.Limits.{most_records};
ghost use Rattle.pcapng_read.specs.declared.bad.NgBad.{NgBad};

use crate::format::Format;
use crate::loading::Loading;
use crate::notes::Notes;
use crate::{Capture, LoadStop};
use flow_base::{Ahead, NoMemory, Source};
use hash_rows::{Amount, Packets, Tallies};
use std::alloc::Global;

/// Reads the source to its end, with a buffer of 4,096 bytes: a pcapng capture where its first four
/// bytes say so, and else a libpcap capture. A fault comes only where the source failed, and a
/// refusal exactly where the bytes that it gave hold it.
pub fn load_capture<S: Source>(
    alloc: Global,
    source: &mut S,
    amount: Amount,
) -> Result<Capture, LoadStop>
    ensures whole { IfOk result (λ capture. Given (S.left source.old) (S.left source.new)
        (λ given rest. (rest ≡ []) × IsLoaded amount given capture)) }
    ensures read { IsErrOf result LoadStop.ReadFault → Rose (S.faults source.old) (S.faults source.new) }
    ensures bad { (bad : Bad) → IsErrOf result (LoadStop.Bad bad)
        → Given (S.left source.old) (S.left source.new) (λ given rest. HoldsRefusal given rest (Refusal.Pcap bad)) }
    ensures ng { (bad : NgBad) → IsErrOf result (LoadStop.Ng bad)
        → Given (S.left source.old) (S.left source.new) (λ given rest. HoldsRefusal given rest (Refusal.Ng bad)) }
    ensures fine { OnOk result ((refusal : Refusal)
        → Given (S.left source.old) (S.left source.new) (λ given rest. HoldsRefusal given rest refusal → ⊥)) }
    ensures unrefused { IsErrOf result LoadStop.ReadFault → (frames : List Framed) (refusal : Refusal)
        → Given (S.left source.old) (S.left source.new) (λ given rest. RefusesNext most_records given frames refusal → ⊥) }
    ensures few { IfOk result (λ capture. length capture.packets.items ≤ most_records) }
    ensures front { (given : List ℕ) × (S.left source.old ≡ behind given (S.left source.new)) }
    ensures later { S.faults source.old ≤ S.faults source.new }
{
    let mut ahead = Ahead::new(source);
    load_behind(alloc, &mut ahead, amount)
}

/// The same of a source whose next bytes were looked at: the capture begins with those that aren't
/// taken yet.
pub fn load_behind<S: Source>(
    alloc: Global,
    source: &mut Ahead<'_, S>,
    amount: Amount,
) -> Result<Capture, LoadStop>
    ensures same_reference { source.new.source.ghost_name ≡ source.old.source.ghost_name }
    ensures whole { IfOk result (λ capture. Given (left_of S.left source.old) (S.left source.new.source.now)
        (λ given rest. (rest ≡ []) × IsLoaded amount given capture)) }
    ensures read { IsErrOf result LoadStop.ReadFault → Rose (S.faults source.old.source.now) (S.faults source.new.source.now) }
    ensures bad { (bad : Bad) → IsErrOf result (LoadStop.Bad bad)
        → Given (left_of S.left source.old) (S.left source.new.source.now) (λ given rest. HoldsRefusal given rest (Refusal.Pcap bad)) }
    ensures ng { (bad : NgBad) → IsErrOf result (LoadStop.Ng bad)
        → Given (left_of S.left source.old) (S.left source.new.source.now) (λ given rest. HoldsRefusal given rest (Refusal.Ng bad)) }
    ensures fine { OnOk result ((refusal : Refusal)
        → Given (left_of S.left source.old) (S.left source.new.source.now) (λ given rest. HoldsRefusal given rest refusal → ⊥)) }
    ensures unrefused { IsErrOf result LoadStop.ReadFault → (frames : List Framed) (refusal : Refusal)
        → Given (left_of S.left source.old) (S.left source.new.source.now)
        (λ given rest. RefusesNext most_records given frames refusal → ⊥) }
    ensures few { IfOk result (λ capture. length capture.packets.items ≤ most_records) }
    ensures front { (given : List ℕ) × (left_of S.left source.old ≡ behind given (S.left source.new.source.now)) }
    ensures later { S.faults source.old.source.now ≤ S.faults source.new.source.now }
{
    let mut loading = begin(alloc, amount)?;
    'reads: loop {
        match source.fill() {
            Err(_) => return Err(LoadStop::ReadFault),
            Ok(()) => {}
        }
        let window = source.window();
        let count = window.len();
        if count == 0 {
            break;
        }
        match loading.feed(alloc, window) {
            Err(stop) => return Err(stop),
            Ok(()) => source.pass(count),
        }
    }
    finish(loading)
}

fn begin(alloc: Global, amount: Amount) -> Result<Loading, LoadStop>
    ensures loads { IfOk result (λ loading. Loads loading [] []) }
    ensures open { IfOk result (λ loading. loading.format ≡ Format.Open 0) }
    ensures counts { IfOk result (λ loading. Counts loading) }
    ensures amount { IfOk result (λ loading. loading.notes.amount ≡ amount) }
    ensures err { IfErr result (λ stop. stop ≡ LoadStop.NoMemory) }
{
    match Packets::new(alloc, 4096) {
        Err(_) => Err(LoadStop::NoMemory),
        Ok(packets) => Ok(Loading {
            format: Format::Open(0),
            notes: Notes {
                packets,
                skipped: Tallies {
                    short: 0,
                    not_ip: 0,
                    bad_ip: 0,
                    tags: 0,
                },
                amount,
            },
        }),
    }
}

// At the end of input.
fn finish(loading: Loading) -> Result<Capture, LoadStop>
    requires { Counts loading }
    ensures few { IfOk result (λ capture. length capture.packets.items ≤ most_records) }
    ensures ends { (bytes : List ℕ) (frames : List Framed) → Loads loading bytes frames →
        MatchResult result (IsLoaded loading.notes.amount bytes) (EndsIn bytes) }
{
    match loading.format.end() {
        Err(stop) => Err(stop),
        Ok(cut) => Ok(Capture {
            records: loading.notes.number(),
            packets: loading.notes.packets,
            skipped: loading.notes.skipped,
            cut,
        }),
    }
}
