ghost use Rattle.std.specs.Prelude.{◌≡◌, ◌≤◌, length};
ghost use Rattle.hash_rows.specs.OptionTexts.{sketch_text, amount_text, share_text, full_text, mode_text};

use hash_rows::{Amount, Full, Mode, Share, Sketch};

#[tactic(auto, unfolding(hash_rows::specs::OptionTexts::sketch_text))]
pub(crate) fn sketch_word(sketch: Sketch) -> &'static [u8]
    ensures text { result.now ≡ sketch_text sketch }
    ensures room { length result.now ≤ 20 }
{
    match sketch {
        Sketch::CountMin => b"count-min",
        Sketch::CountSketch => b"count-sketch",
        Sketch::LogLog => b"loglog",
    }
}

#[tactic(auto, unfolding(hash_rows::specs::OptionTexts::amount_text))]
pub(crate) fn amount_word(amount: Amount) -> &'static [u8]
    ensures text { result.now ≡ amount_text amount }
    ensures room { length result.now ≤ 20 }
{
    match amount {
        Amount::Packets => b"packets",
        Amount::Bytes => b"bytes",
    }
}

#[tactic(auto, unfolding(hash_rows::specs::OptionTexts::share_text))]
pub(crate) fn share_word(share: Share) -> &'static [u8]
    ensures text { result.now ≡ share_text share }
    ensures room { length result.now ≤ 20 }
{
    match share {
        Share::Turn => b"turn",
        Share::Key => b"key",
    }
}

#[tactic(auto, unfolding(hash_rows::specs::OptionTexts::full_text))]
pub(crate) fn full_word(full: Full) -> &'static [u8]
    ensures text { result.now ≡ full_text full }
    ensures room { length result.now ≤ 20 }
{
    match full {
        Full::Leave => b"leave",
        Full::Wait => b"wait",
    }
}

#[tactic(auto, unfolding(hash_rows::specs::OptionTexts::mode_text))]
pub(crate) fn mode_word(mode: Mode) -> &'static [u8]
    ensures text { result.now ≡ mode_text mode }
    ensures room { length result.now ≤ 20 }
{
    match mode {
        Mode::Rounds => b"rounds",
        Mode::Threads => b"threads",
    }
}
