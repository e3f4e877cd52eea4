ghost use Rattle.std.specs.Prelude.{◌≡◌, ◌<◌, ℕ, false, length};
ghost use Rattle.std.specs.Str.{IsAscii};
ghost use Rattle.packet_key.specs.Alphabet.{IsOf, Lacks};
ghost use Rattle.prefixes.specs.declared.network.Prefix.{Prefix};
ghost use Rattle.prefixes.specs.Networks.{IsNetwork};
ghost use Rattle.prefixes.specs.Texts.{is_text_byte, prefix_text};

/// Two networks of one text are one network. A law: it does nothing when it runs.
pub fn one_text()
    ensures { (p q : Prefix) → IsNetwork p → IsNetwork q → prefix_text p ≡ prefix_text q → p ≡ q }
{}

/// The bytes of a network's text are digits, `.` and `/`. So no comma, space or line feed stands in
/// it. A law: it does nothing when it runs.
pub fn text_letters()
    ensures letters { (p : Prefix) → IsNetwork p → IsOf is_text_byte (prefix_text p) }
    ensures others { (p : Prefix) → IsNetwork p → (byte : ℕ) → is_text_byte byte ≡ false → Lacks byte (prefix_text p) }
    ensures ascii { (p : Prefix) → IsNetwork p → IsAscii (prefix_text p) }
    ensures some { (p : Prefix) → 0 < length (prefix_text p) }
{}
