ghost use Rattle.std.specs.Prelude.{◌≡◌, ◌≢◌, ℕ, List, All, Contains, IfSome, MatchBool, MatchOption, refl};
ghost use Rattle.packet_key.proofs.Bytes.{Lacks-text_of};
ghost use Rattle.packet_key.proofs.OneText.{one_key};
ghost use Rattle.packet_key.specs.Alphabet.{Lacks};
ghost use Rattle.packet_key.specs.KeyText.{IsKey, text_of};
ghost use Rattle.prefixes.proofs.Texts.{Lacks-prefix_text, one_network};
ghost use Rattle.prefixes.specs.Networks.{IsNetwork};
ghost use Rattle.prefixes.specs.Texts.{prefix_text as text_of_network};

use packet_key::{FlowKey, parse_key};
use prefixes::{Prefix, parse_prefix};

/// What can be watched: it is named by its text, in which no comma stands.
pub(crate) trait Watched: Copy + Drop {
    /// The value has a text.
    ghost has_text: { Self → Type 0 };

    ghost text_for: { Self → List ℕ };

    /// The value whose text this is.
    fn parse(text: &str) -> Option<Self>
        ensures value { IfSome result has_text }
        ensures text { MatchOption result
            ((value : Self) → has_text value → text.now ≢ text_for value)
            (λ value. text.now ≡ text_for value) };

    /// Whether the value is among those.
    fn is_among(&self, others: &[Self]) -> bool
        ensures { MatchBool result (Contains others.now self.now) (All (λ other. other ≢ self.now) others.now) };

    ghost without_comma: { (value : Self) → has_text value → Lacks 44 (text_for value) };

    ghost one_text: { (a b : Self) → has_text a → has_text b → text_for a ≡ text_for b → a ≡ b };
}

impl Watched for FlowKey {
    ghost has_text = { IsKey };

    ghost text_for = { text_of };

    fn parse(text: &str) -> Option<FlowKey> {
        parse_key(text)
    }

    fn is_among(&self, others: &[FlowKey]) -> bool {
        others.contains(self)
    }

    ghost without_comma = { Lacks-text_of 44 refl };

    ghost one_text = { one_key };
}

impl Watched for Prefix {
    ghost has_text = { IsNetwork };

    ghost text_for = { text_of_network };

    fn parse(text: &str) -> Option<Prefix> {
        parse_prefix(text)
    }

    fn is_among(&self, others: &[Prefix]) -> bool {
        others.contains(self)
    }

    ghost without_comma = { Lacks-prefix_text 44 refl };

    ghost one_text = { one_network };
}
