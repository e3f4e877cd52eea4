ghost use Rattle.std.specs.Prelude.{◌≡◌, ◌<◌, ℕ, false, length, slice_index};
ghost use Rattle.std.specs.Str.{IsAscii};
ghost use Rattle.packet_key.specs.declared.key.FlowKey.{FlowKey};
ghost use Rattle.packet_key.specs.Alphabet.{IsOf, Lacks, is_key_byte};
ghost use Rattle.packet_key.specs.KeyText.{IsAddress, IsKey, text_of};

use crate::FlowKey;

/// The numbers of a key are in the ranges of their types. A law: it does nothing when it runs.
pub fn in_range(key: &FlowKey)
    ensures { IsKey key.now }
{
    match key {
        FlowKey::V4 {
            src,
            dst,
            sport,
            dport,
            proto,
        } => {
            let _numbers = (*src, *dst, *sport, *dport, *proto);
        }
        FlowKey::V6 {
            src,
            dst,
            sport,
            dport,
            proto,
        } => {
            is_address(src);
            is_address(dst);
            let _numbers = (*sport, *dport, *proto);
        }
    }
}

fn is_address(address: &[u8; 16])
    ensures { IsAddress address.now }
{
    are_bytes(address);
}

fn are_bytes(bytes: &[u8])
    ensures { (k : ℕ) → slice_index bytes.now k < 256 }
{}

/// Two keys of one text are one key. A law: it does nothing when it runs.
pub fn one_text()
    ensures { (k l : FlowKey) → IsKey k → IsKey l → text_of k ≡ text_of l → k ≡ l }
{}

/// The bytes of a key's text are digits, the letters from `a` to `f`, and `.`, `:`, `[`, `]`, `>` and
/// `/`. So no comma, space or line feed stands in it. A law: it does nothing when it runs.
pub fn key_letters()
    ensures letters { (k : FlowKey) → IsKey k → IsOf is_key_byte (text_of k) }
    ensures others { (k : FlowKey) → IsKey k → (byte : ℕ) → is_key_byte byte ≡ false → Lacks byte (text_of k) }
    ensures ascii { (k : FlowKey) → IsKey k → IsAscii (text_of k) }
    ensures some { (k : FlowKey) → 0 < length (text_of k) }
{}
