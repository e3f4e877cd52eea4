ghost use Rattle.std.specs.Prelude.{◌≡◌, ◌≤◌, length, IfOk};
ghost use Rattle.hash_rows.specs.Limits.{most_records};
ghost use Rattle.hash_rows.specs.Sequential.{sequential_table};
ghost use Rattle.reports.specs.ReportOf.{IsReport, Reports};

use crate::findings::{estimates, findings_of};
use crate::totals::{total_of, used_of};
use flow_base::NoMemory;
use hash_rows::{Kind, Options, Packet, Table, Tallies};
use octo_text::Report;
use std::alloc::Global;

/// The report of a capture: its keyed packets, how many records it holds, how many of them have no
/// key and why, the bytes behind the last whole record, and the table of its packets.
pub fn report_of<K: Kind>(
    alloc: Global,
    packets: &[Packet],
    records: u64,
    skipped: Tallies,
    cut: u32,
    options: &Options,
    table: &Table<K>,
) -> Result<Report, NoMemory>
    requires few { length packets.now ≤ most_records }
    requires sketch { options.now.sketch ≡ K.sketch }
    ensures tells { IfOk result (λ report. Reports K.rules table.now packets.now records skipped cut options.now report) }
    ensures sequential { IfOk result (λ report. table.now ≡ sequential_table K.rules options.now.shape packets.now
        → IsReport packets.now records skipped cut options.now report) }
{
    let findings = findings_of(alloc, packets, options, table)?;
    Ok(Report {
        sketch: K::which_sketch(),
        shape: options.shape,
        amount: options.amount,
        records,
        keyed: packets.len() as u64,
        skipped,
        cut,
        total: total_of(packets),
        used: used_of(alloc, table)?,
        watch: estimates(alloc, &options.watch, table)?,
        distinct: findings.distinct,
        heavy: findings.heavy,
        flows: findings.flows,
    })
}
