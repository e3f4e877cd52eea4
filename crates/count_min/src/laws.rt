ghost use Rattle.std.specs.Prelude.{◌≡◌, ◌<◌, ◌^◌, ◌≤ℤ◌, List, pos};
ghost use Rattle.packet_key.specs.declared.key.FlowKey.{FlowKey};
ghost use Rattle.hash_rows.specs.Amounts.{key_amount, total_amount};
ghost use Rattle.hash_rows.specs.Rules.{rules_of};
ghost use Rattle.hash_rows.specs.Sequential.{sequential_table};
ghost use Rattle.hash_rows.specs.Shapes.{IsShape};
ghost use Rattle.hash_rows.specs.Sketches.{count_min_estimate};
ghost use Rattle.hash_rows.specs.declared.options.Sketch.TheVariants.{CountMin};
ghost use Rattle.hash_rows.specs.declared.shape.Packet.{Packet};
ghost use Rattle.hash_rows.specs.declared.shape.Shape.{Shape};

/// Each estimate of the sequential table, so each that a report tells, is at least what the key's
/// packets amount to, where all of them together are less than 2^63 (Cormode, Muthukrishnan, 2005,
/// section 4.1).
pub fn no_estimate_is_below()
    ensures { (shape : Shape) (packets : List Packet) (key : FlowKey) → IsShape shape → total_amount packets < 2 ^ 63 →
        pos (key_amount packets key) ≤ℤ count_min_estimate shape (sequential_table (rules_of CountMin) shape packets).cells key }
{}
