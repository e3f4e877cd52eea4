ghost use Rattle.std.specs.Prelude.{◌≡◌, ◌<◌, ℕ, ℤ, pos, true, Bool, Option, Some, All, length};
ghost use Rattle.hash_rows.specs.Hash.{row_hash_of};
ghost use Rattle.hash_rows.specs.Rules.{Rules, AreLaws, rules_of, AreValues};
ghost use Rattle.hash_rows.specs.Shapes.{IsShape, size_of};
ghost use Rattle.hash_rows.specs.declared.options.Sketch.{Sketch};

use crate::{Packet, Shape, Sketch};
use packet_key::FlowKey;

/// A kind of sketch: how its cells are joined, and what they say of a key.
pub trait Kind: Drop + Send + Sync {
    /// What a private cell keeps: it stands for what was told of the cell, and for its whole value.
    type Held: Copy + Drop + Send + Sync;

    /// Whether estimates depend on the key.
    const KEYED: bool;

    ghost KEYED: { Bool };

    ghost sketch: { Sketch };

    /// The functions of the kind.
    ghost rules: { Rules };

    /// The held value stands for what was told and for the whole.
    ghost stands: { Self.Held → ℤ → ℤ → Type 0 };

    ghost fresh_held: { Self.Held };

    ghost small_of: { Self.Held → Option ℤ };

    ghost held_of_small: { ℤ → Self.Held };

    fn which_sketch() -> Sketch
        ensures { result ≡ sketch };

    fn join(a: i64, b: i64) -> i64
        ensures { result ≡ rules.join a b };

    /// What joins `told` to `whole`.
    fn gap(told: i64, whole: i64) -> i64
        ensures { result ≡ rules.gap told whole };

    fn is_value(a: i64) -> bool
        ensures { result ≡ rules.is_value a };

    fn distance(told: i64, whole: i64) -> u64
        ensures { result ≡ rules.distance told whole };

    /// What the packet adds in this row.
    fn value(shape: &Shape, packet: &Packet, row: u32) -> i64
        requires shape { IsShape shape.now }
        requires row { row < shape.now.rows }
        ensures { result ≡ rules.value shape.now packet.now row };

    /// The same, with the hash of the packet's key in this row.
    fn value_in_row(shape: &Shape, packet: &Packet, row: u32, hash: u64) -> i64
        requires shape { IsShape shape.now }
        requires row { row < shape.now.rows }
        requires hash { hash ≡ row_hash_of packet.now.key row }
        ensures { result ≡ rules.value shape.now packet.now row };

    /// What the cells say of the key.
    fn estimate(shape: &Shape, cells: &[i64], key: &FlowKey) -> i64
        requires shape { IsShape shape.now }
        requires cells { length cells.now ≡ size_of shape.now }
        requires values { AreValues rules cells.now }
        ensures { result ≡ rules.estimate shape.now cells.now key.now };

    fn fresh() -> Self::Held
        ensures { result ≡ fresh_held };

    fn counted(h: Self::Held, value: i64) -> Self::Held
        ensures { (told whole : ℤ) → rules.is_value value ≡ true → stands h told whole → stands result told (rules.join whole value) };

    /// The distance and the gap of what was told and the whole.
    fn unsent(h: Self::Held) -> (u64, i64)
        ensures { (told whole : ℤ) → stands h told whole → (result.0 ≡ rules.distance told whole) × (result.1 ≡ rules.gap told whole) };

    fn told_all(h: Self::Held) -> Self::Held
        ensures { (told whole : ℤ) → stands h told whole → stands result whole whole };

    /// A held value in one byte, where it fits.
    fn small(h: Self::Held) -> Option<i8>
        requires { (told : ℤ) × (whole : ℤ) × stands h told whole }
        ensures { result ≡ small_of h };

    fn from_small(b: i8) -> Self::Held
        requires { (h : Self.Held) × (told : ℤ) × (whole : ℤ) × stands h told whole × (small_of h ≡ Some b) }
        ensures { result ≡ held_of_small b };

    /// The functions are those of the sketch.
    ghost is_sketch: { rules ≡ rules_of sketch };

    ghost is_keyed: { KEYED ≡ rules.keyed };

    ghost laws: { AreLaws rules };

    ghost fresh_stands: { stands fresh_held (pos 0) (pos 0) };

    /// A held value stands for two values, the told one behind the whole.
    ghost stands_for_values: { (h : Self.Held) (told whole : ℤ) → stands h told whole → (rules.is_value told ≡ true)
        × (rules.is_value whole ≡ true) × (rules.is_behind told whole ≡ true) };

    ghost small_is: { (h : Self.Held) (told whole : ℤ) → stands h told whole → small_of h ≡ rules.small told whole };

    ghost small_back: { (h : Self.Held) (told whole b : ℤ) → stands h told whole → small_of h ≡ Some b → held_of_small b ≡ h };
}
