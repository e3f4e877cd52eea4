ghost use Rattle.std.specs.Prelude.{◌≡◌, ◌≤◌, ◌∷◌, [], All, length};
ghost use Rattle.std.specs.List.{flat_map};
ghost use Rattle.flow_base.specs.Causes.{HasCause};
ghost use Rattle.flow_base.specs.Writing.{Writes};
ghost use Rattle.prefixes.specs.Networks.{IsNetwork};
ghost use Rattle.prefix_report.specs.PrefixText.{network_line, of_length};

use flow_base::{Failed, Sink};
use octo_text::Line;
use prefix_stack::Hit;
use prefixes::prefix_text;

#[tactic(auto, unfolding(crate::specs::PrefixText::network_line))]
fn write_network<T: Sink>(out: &mut T, name: &[u8], hit: &Hit) -> Result<(), Failed>
    requires name { length name.now ≤ 20 }
    requires network { IsNetwork hit.now.prefix }
    ensures writes { Writes (T.holds out.old) (T.holds out.new) (network_line name.now hit.now) result }
    ensures cause { HasCause (T.faults out.old) (T.faults out.new) result }
{
    let mut text = [0; 20];
    let len = prefix_text(&hit.prefix, &mut text);
    let mut line = Line::new();
    line.text(name);
    line.text(b" ");
    line.text(&text[..len]);
    line.text(b" ");
    line.signed(hit.estimate);
    line.send(out)
}

// Writes the network's line where it has the length, and else nothing.
fn write_if_of<T: Sink>(out: &mut T, name: &[u8], bits: u32, hit: &Hit) -> Result<(), Failed>
    requires name { length name.now ≤ 20 }
    requires network { IsNetwork hit.now.prefix }
    ensures writes { Writes (T.holds out.old) (T.holds out.new)
        (flat_map (network_line name.now) (of_length bits (hit.now ∷ []))) result }
    ensures cause { HasCause (T.faults out.old) (T.faults out.new) result }
{
    if hit.prefix.length == bits {
        write_network(out, name, hit)
    } else {
        Ok(())
    }
}

/// Writes a line for each network of the length: a name, at most 20 bytes of it, the network and its
/// estimate.
pub(crate) fn write_networks<T: Sink>(
    out: &mut T,
    name: &[u8],
    bits: u32,
    hits: &[Hit],
) -> Result<(), Failed>
    requires name { length name.now ≤ 20 }
    requires networks { All (λ hit. IsNetwork hit.prefix) hits.now }
    ensures writes { Writes (T.holds out.old) (T.holds out.new)
        (flat_map (network_line name.now) (of_length bits hits.now)) result }
    ensures cause { HasCause (T.faults out.old) (T.faults out.new) result }
{
    for hit in hits {
        write_if_of(out, name, bits, hit)?;
    }
    Ok(())
}

/// How many of the networks have the length.
pub(crate) fn count_of(bits: u32, hits: &[Hit]) -> u64
    ensures { result ≡ length (of_length bits hits.now) }
{
    let mut count = 0;
    for hit in hits {
        if hit.prefix.length == bits {
            count += 1;
        }
    }
    count
}
