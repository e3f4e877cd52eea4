ghost use Rattle.std.specs.Prelude.{◌≡◌, ◌≤◌, All, length, IfOk};
ghost use Rattle.hash_rows.specs.Limits.{most_records};
ghost use Rattle.prefixes.specs.Networks.{IsNetwork};
ghost use Rattle.prefix_stack.specs.Descent.{IsFound};
ghost use Rattle.prefix_stack.specs.Levels.{level_tables};
ghost use Rattle.prefix_stack.specs.Runs.{HaveAnswers};
ghost use Rattle.prefix_report.specs.Reports.{HasEachLength, IsPrefixReport};

use crate::amounts::{ipv4_total, other_count};
use crate::watched::watched;
use flow_base::NoMemory;
use hash_rows::{Amount, Options, Packet, Shape, Tallies};
use prefix_stack::{AnswerRows, Found, Hits, Stack};
use prefixes::Prefix;
use std::alloc::Global;

/// What is told of a capture's source networks. The sketch is a Count-Min.
#[derive(Drop)]
pub struct PrefixReport {
    pub shape: Shape,
    pub amount: Amount,
    /// Whole records.
    pub records: u64,
    /// Records with a key, of either family.
    pub keyed: u64,
    /// Those with an IPv6 key.
    pub other: u64,
    pub skipped: Tallies,
    /// The bytes behind the last whole record.
    pub cut: u32,
    /// The sum of the amounts of the IPv4 packets.
    pub total: u64,
    /// The watched networks with their estimates, in the order given.
    pub watch: Hits,
    /// What readers were answered, by length upwards.
    pub answers: AnswerRows,
    pub found: Found,
}

/// The report of a capture's source networks: its keyed packets, how many records it holds, how many
/// of them have no key and why, the bytes behind the last whole record, and what a run of each length
/// comes to, with these options and watched networks.
pub fn report_of(
    alloc: Global,
    packets: &[Packet],
    records: u64,
    skipped: Tallies,
    cut: u32,
    options: &Options,
    watch: &[Prefix],
    stack: Stack,
) -> Result<PrefixReport, NoMemory>
    requires few { length packets.now ≤ most_records }
    requires most { length watch.now ≤ 16 }
    requires watch { All IsNetwork watch.now }
    requires tables { stack.tables.items ≡ level_tables options.now.shape packets.now }
    requires answers { HaveAnswers packets.now options.now watch.now 4 stack.answers.items }
    requires found { IsFound stack.tables.items options.now.heavy options.now.least stack.found.hits.items stack.found.more }
    requires networks { All (λ hit. IsNetwork hit.prefix) stack.found.hits.items }
    ensures report { IfOk result (IsPrefixReport packets.now records skipped cut options.now watch.now) }
    ensures complete { IfOk result HasEachLength }
{
    let estimates = watched(alloc, stack.tables.as_slice(), watch)?;
    Ok(PrefixReport {
        shape: options.shape,
        amount: options.amount,
        records,
        keyed: packets.len() as u64,
        other: other_count(packets),
        skipped,
        cut,
        total: ipv4_total(packets),
        watch: estimates,
        answers: stack.answers,
        found: stack.found,
    })
}
