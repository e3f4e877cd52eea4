ghost use Rattle.std.specs.Prelude.{◌≡◌, true, false};
ghost use Rattle.std.specs.Option.{option_copied};
ghost use Rattle.hash_rows.specs.Lawful.{IsRegisters};
ghost use Rattle.hash_rows.specs.OptionTexts.{sketch_text, amount_text, share_text, full_text, mode_text};
ghost use Rattle.words.specs.Values.{Finds, IsNumberIn, IsNumberOf, NeedsNumber, ReadsInteger, ReadsChoice};
ghost use Rattle.words.specs.Forms.{is_plain};

use hash_rows::{Amount, Full, Mode, Share, Sketch};

// Whether the text has a first byte, which is no sign, and no zero before another byte.
fn is_plain(text: &str) -> bool
    ensures { result ≡ is_plain text.now }
{
    let bytes = text.as_bytes();
    !bytes.is_empty() && bytes[0] != b'+' && (bytes.len() == 1 || bytes[0] != b'0')
}

/// The number that the text writes, where it is in range.
pub(crate) fn number_in(text: &str, low: u64, high: u64) -> Option<u64>
    ensures { Finds (IsNumberIn low high text.now) result }
{
    if !is_plain(text) {
        return None;
    }
    let Ok(n) = text.parse::<u64>() else {
        return None;
    };
    if n < low || high < n {
        return None;
    }
    Some(n)
}

/// The number of an option that may be missing.
pub(crate) fn number_or(text: Option<&str>, low: u64, high: u64, otherwise: u64) -> Option<u64>
    ensures { Finds (IsNumberOf low high otherwise (option_copied text.entry)) result }
{
    match text {
        Some(text) => number_in(text, low, high),
        None => Some(otherwise),
    }
}

/// The same for a smaller number.
pub(crate) fn small_or(text: Option<&str>, low: u32, high: u32, otherwise: u32) -> Option<u32>
    ensures { Finds (IsNumberOf low high otherwise (option_copied text.entry)) result }
{
    match text {
        Some(text) => {
            let n = number_in(text, u64::from(low), u64::from(high))?;
            Some(n as u32)
        }
        None => Some(otherwise),
    }
}

/// The number of an option that has to stand.
pub(crate) fn number_of(text: Option<&str>, low: u32, high: u32) -> Option<u32>
    ensures { Finds (NeedsNumber low high (option_copied text.entry)) result }
{
    let n = number_in(text?, u64::from(low), u64::from(high))?;
    Some(n as u32)
}

/// The least estimate of a heavy flow.
pub(crate) fn least_or(text: Option<&str>) -> Option<i64>
    ensures { Finds (ReadsInteger 1 1099511627776 1024 (option_copied text.entry)) result }
{
    match text {
        Some(text) => {
            let n = number_in(text, 1, 1099511627776)?;
            Some(n as i64)
        }
        None => Some(1024),
    }
}

#[tactic(auto, unfolding(hash_rows::specs::OptionTexts::sketch_text))]
pub(crate) fn sketch_or(text: Option<&str>, otherwise: Sketch) -> Option<Sketch>
    ensures { Finds (ReadsChoice sketch_text otherwise (option_copied text.entry)) result }
{
    let Some(text) = text else {
        return Some(otherwise);
    };
    match text {
        "count-min" => Some(Sketch::CountMin),
        "count-sketch" => Some(Sketch::CountSketch),
        "loglog" => Some(Sketch::LogLog),
        _ => None,
    }
}

#[tactic(auto, unfolding(hash_rows::specs::OptionTexts::amount_text))]
pub(crate) fn amount_or(text: Option<&str>) -> Option<Amount>
    ensures { Finds (ReadsChoice amount_text Amount.Packets (option_copied text.entry)) result }
{
    let Some(text) = text else {
        return Some(Amount::Packets);
    };
    match text {
        "packets" => Some(Amount::Packets),
        "bytes" => Some(Amount::Bytes),
        _ => None,
    }
}

#[tactic(auto, unfolding(hash_rows::specs::OptionTexts::share_text))]
pub(crate) fn share_or(text: Option<&str>) -> Option<Share>
    ensures { Finds (ReadsChoice share_text Share.Turn (option_copied text.entry)) result }
{
    let Some(text) = text else {
        return Some(Share::Turn);
    };
    match text {
        "turn" => Some(Share::Turn),
        "key" => Some(Share::Key),
        _ => None,
    }
}

#[tactic(auto, unfolding(hash_rows::specs::OptionTexts::full_text))]
pub(crate) fn full_or(text: Option<&str>) -> Option<Full>
    ensures { Finds (ReadsChoice full_text Full.Leave (option_copied text.entry)) result }
{
    let Some(text) = text else {
        return Some(Full::Leave);
    };
    match text {
        "leave" => Some(Full::Leave),
        "wait" => Some(Full::Wait),
        _ => None,
    }
}

#[tactic(auto, unfolding(hash_rows::specs::OptionTexts::mode_text))]
pub(crate) fn mode_or(text: Option<&str>) -> Option<Mode>
    ensures { Finds (ReadsChoice mode_text Mode.Rounds (option_copied text.entry)) result }
{
    let Some(text) = text else {
        return Some(Mode::Rounds);
    };
    match text {
        "rounds" => Some(Mode::Rounds),
        "threads" => Some(Mode::Threads),
        _ => None,
    }
}

/// Whether a LogLog sketch can have so many registers.
pub(crate) fn is_registers(n: u32) -> bool
    ensures yes { result ≡ true → IsRegisters n }
    ensures no { result ≡ false → IsRegisters n → ⊥ }
{
    matches!(n, 128 | 256 | 512 | 1024 | 2048 | 4096 | 8192 | 16384)
}
