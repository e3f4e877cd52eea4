ghost use Rattle.std.specs.Prelude.{◌≡◌, ◌≢◌, ◌≤◌, ◌++◌, ◌∷◌, [], All, Contains, MatchBool, MatchOption, IfSome, length, ◌<◌, true, false};
ghost use Rattle.packet_key.specs.declared.key.FlowKey.{FlowKey};
ghost use Rattle.packet_key.specs.KeyText.{IsKey};
ghost use Rattle.journal_read.specs.Drafts.{MayFollow};
ghost use Rattle.journal_read.specs.Entries.{line_of, Live, Watched};
ghost use Rattle.journal_whole.specs.Drafted.{draft_of, HasRooms, IsAnswered, IsProper};
ghost use Rattle.journal_whole.specs.Steps.{Reads};

use crate::reading::{Place, Reading};
use hash_rows::{Keys, Options, Sketch};
use journal_read::read_key;
use packet_key::{FlowKey, one_text};

const MOST_WATCHED: u32 = 16;

const MOST_LIVE: u32 = 1024;

// Whether the key is among those.
fn is_among(keys: &[FlowKey], key: &FlowKey) -> bool
    ensures { MatchBool result (Contains keys.now key.now) (All (λ k. k ≢ key.now) keys.now) }
{
    keys.contains(key)
}

// Whether one more key may be watched, where no worker was told of yet.
fn may_watch(options: &Options) -> bool
    requires { length options.now.watch.items ≤ 16 }
    ensures yes { result ≡ true → (length options.now.watch.items < 16) × (options.now.sketch ≢ Sketch.LogLog) }
    ensures no { result ≡ false → length options.now.watch.items < 16 → options.now.sketch ≢ Sketch.LogLog → ⊥ }
{
    options.watch.len() < MOST_WATCHED && options.sketch != Sketch::LogLog
}

// The key of the line, where it may be watched beside those that are.
fn watched_in(line: &[u8], watched: &[FlowKey]) -> Option<FlowKey>
    ensures some { IfSome result (λ k. IsKey k × All (λ l. l ≢ k) watched.now) }
    ensures line { MatchOption result
        ((k : FlowKey) → IsKey k → All (λ l. l ≢ k) watched.now → line.now ≢ line_of (Watched k))
        (λ k. line.now ≡ line_of (Watched k)) }
{
    one_text();
    let key = read_key(line, b"watched")?;
    if is_among(watched, &key) {
        None
    } else {
        Some(key)
    }
}

/// Reads the line of a watched key, where one may come and it is one.
pub(crate) fn take_watched(line: &[u8], reading: &mut Reading) -> bool
    requires rooms { HasRooms reading.old }
    requires proper { IsProper (draft_of reading.old) }
    requires listing { reading.old.place ≡ Place.Lists }
    ensures rooms { HasRooms reading.new }
    ensures yes { result ≡ true → Reads (draft_of reading.old) (draft_of reading.new) line.now }
    ensures same { result ≡ false → reading.new ≡ reading.old }
    ensures no { result ≡ false → (k : FlowKey) → MayFollow (draft_of reading.old) (Watched k) → line.now ≢ line_of (Watched k) }
{
    let options = &mut reading.journal.options;
    if reading.journal.lists.pushes.len() > 0 || !may_watch(options) {
        return false;
    }
    match watched_in(line, options.watch.as_slice()) {
        Some(key) => {
            options.watch.push(key);
            true
        }
        None => false,
    }
}

/// Reads the line of a live key, where one may come and it is one.
pub(crate) fn take_live(line: &[u8], reading: &mut Reading) -> bool
    requires rooms { HasRooms reading.old }
    requires answered { IsAnswered (draft_of reading.old) }
    ensures rooms { HasRooms reading.new }
    ensures yes { result ≡ true → Reads (draft_of reading.old) (draft_of reading.new) line.now }
    ensures same { result ≡ false → reading.new ≡ reading.old }
    ensures no { result ≡ false → (k : FlowKey) → MayFollow (draft_of reading.old) (Live k) → line.now ≢ line_of (Live k) }
{
    if reading.journal.lists.live.len() >= MOST_LIVE {
        return false;
    }
    match read_key(line, b"live") {
        Some(key) => {
            reading.journal.lists.live.push(key);
            true
        }
        None => false,
    }
}
