ghost use Rattle.std.specs.Prelude.{◌≡◌, ◌≢◌, ◌≤◌, ◌++◌, ◌∷◌, [], ℕ, List, length, IfSome, MatchOption, true, false};
ghost use Rattle.packet_key.specs.declared.key.FlowKey.{FlowKey};
ghost use Rattle.packet_key.specs.KeyText.{IsKey, text_of};
ghost use Rattle.octo_text.specs.Lines.{key_line};

use crate::numbers::skip;
use octo_text::Line;
use packet_key::{FlowKey, key_letters, parse_key};

// The text without its last byte.
fn without_last(text: &[u8]) -> &[u8]
    ensures { (front : List ℕ) (last : ℕ) → text.now ≡ front ++ last ∷ [] → result.now ≡ front }
{
    let len = text.len().max(1) - 1;
    &text[..len.min(text.len())]
}

// The key whose text this is, exactly where it is one.
fn key_of_text(text: &[u8]) -> Option<FlowKey>
    ensures key { IfSome result IsKey }
    ensures text { MatchOption result ((k : FlowKey) → IsKey k → text.now ≢ text_of k) (λ k. text.now ≡ text_of k) }
{
    key_letters();
    match std::str::from_utf8(text) {
        Ok(text) => parse_key(text),
        Err(_) => None,
    }
}

// The key behind a name and a space.
fn key_in(line: &[u8], name: &[u8]) -> Option<FlowKey>
    ensures key { IfSome result IsKey }
    ensures text { (k : FlowKey) → IsKey k → line.now ≡ key_line name.now k → MatchOption result ⊥ (λ read. text_of read ≡ text_of k) }
{
    key_of_text(without_last(skip(line, name.len() + 1)))
}

#[tactic(auto, unfolding(octo_text::specs::Lines::key_line))]
fn is_key(line: &[u8], name: &[u8], key: &FlowKey) -> bool
    requires { length name.now ≤ 20 }
    ensures yes { result ≡ true → line.now ≡ key_line name.now key.now }
    ensures no { result ≡ false → line.now ≢ key_line name.now key.now }
{
    let mut text = Line::new();
    text.text(name);
    text.text(b" ");
    text.key(key);
    text.text(b"\n");
    text.as_slice() == line
}

/// The key that the line says, exactly where it is this name, a key and nothing else.
pub fn read_key(line: &[u8], name: &[u8]) -> Option<FlowKey>
    requires { length name.now ≤ 20 }
    ensures key { IfSome result IsKey }
    ensures text { MatchOption result
        ((k : FlowKey) → IsKey k → line.now ≢ key_line name.now k)
        (λ k. line.now ≡ key_line name.now k) }
{
    let key = key_in(line, name)?;
    if is_key(line, name, &key) {
        Some(key)
    } else {
        None
    }
}
