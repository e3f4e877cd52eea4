ghost use Rattle.push_history.specs.LagRun.{is_wait};
ghost use Rattle.std.specs.Prelude.{◌≡◌, ◌<◌, ◌≤◌, ◌*◌, ◌+◌, ℕ, List, Some, length, if◌then◌else◌, MatchOption};
ghost use Rattle.hash_rows.specs.declared.shape.Packet.{Packet};
ghost use Rattle.push_history.specs.Journal.{rules_in, updates_by_options};
ghost use Rattle.push_replay.specs.Replays.{IsFirstFault};
ghost use Rattle.octo_text.specs.Content.{content_of};
ghost use Rattle.audit_law.specs.Tests.{first_failing};
ghost use Rattle.audit_law.specs.WorkerTests.{all_refused_tests, given_by, refused_by, worker_tests};
ghost use Rattle.audit_law.specs.LineNumbers.{refused_line};
ghost use Rattle.audit_law.specs.declared.failure.Value.{Value};
ghost use Rattle.octo_text.specs.Readable.{HasCountableLines};
ghost use Rattle.journal_audit.specs.Past.{IsFirstPast, NonePast};

use crate::lines::{line_of_refused, line_of_worker};
use audit_law::{Failure, Value};
use hash_rows::{Full, Push};
use octo_text::Journal;
use push_replay::Fault;

/// The first test that fails of a worker with these messages and so many updates, where this is
/// wrong with the first refused update of it that may not be one.
pub fn worker_failure(
    journal: &Journal,
    worker: u32,
    sent: &[Push],
    fault: Option<Fault>,
    updates: u32,
) -> Option<Failure>
    requires short { HasCountableLines journal.now }
    requires worker { worker < length journal.now.lists.refused.items }
    requires pushes { worker < length journal.now.lists.pushes.items }
    ensures { (packets : List Packet) → let o = journal.now.options in let j = content_of journal.now in
        sent.now ≡ given_by packets o j worker → updates ≡ length (updates_by_options packets o worker)
        → IsFirstFault (rules_in o) worker o.threshold o.lane (updates_by_options packets o worker) (refused_by j worker) fault
        → result ≡ first_failing (worker_tests packets o j worker) }
{
    let pushes = *journal.lists.pushes.get(worker);
    let messages = sent.len() as u64;
    if pushes != messages {
        return Some(Failure {
            line: line_of_worker(journal, worker),
            kept: Value::Number(pushes),
            lawful: Value::Number(messages),
        });
    }
    let refused = journal.lists.refused.get(worker).count();
    let waiting = refused_in_wait(journal.options.full, refused);
    if waiting != 0 {
        return Some(Failure {
            line: line_of_worker(journal, worker),
            kept: Value::Number(u64::from(waiting)),
            lawful: Value::Number(0),
        });
    }
    refused_failure(journal, worker, fault, updates)
}

// How many updates were refused though pushes wait.
fn refused_in_wait(full: Full, refused: u32) -> u32
    ensures { result ≡ (if is_wait full then refused else 0) }
{
    match full {
        Full::Leave => 0,
        Full::Wait => refused,
    }
}

// The first test of its refused updates that fails.
fn refused_failure(
    journal: &Journal,
    worker: u32,
    fault: Option<Fault>,
    updates: u32,
) -> Option<Failure>
    requires short { HasCountableLines journal.now }
    requires worker { worker < length journal.now.lists.refused.items }
    ensures { (packets : List Packet) → let o = journal.now.options in let j = content_of journal.now in
        updates ≡ length (updates_by_options packets o worker)
        → IsFirstFault (rules_in o) worker o.threshold o.lane (updates_by_options packets o worker) (refused_by j worker) fault
        → result ≡ first_failing (all_refused_tests packets o j worker) }
{
    match fault {
        Some(fault) => Some(fault_failure(journal, worker, fault)),
        None => past_failure(journal, worker, updates),
    }
}

// What is wrong with the first refused update that may not be one.
fn fault_failure(journal: &Journal, worker: u32, fault: Fault) -> Failure
    requires short { HasCountableLines journal.now }
    requires worker { worker < length journal.now.lists.refused.items }
    ensures { (packets : List Packet) → let o = journal.now.options in let j = content_of journal.now in
        IsFirstFault (rules_in o) worker o.threshold o.lane (updates_by_options packets o worker) (refused_by j worker) (Some fault)
        → Some result ≡ first_failing (all_refused_tests packets o j worker) }
{
    match fault {
        Fault::TooNear { update, distance } => Failure {
            line: line_of_refused(journal, worker, update),
            kept: Value::Number(distance),
            lawful: Value::Number(journal.options.threshold),
        },
        Fault::TooFew { update, messages } => Failure {
            line: line_of_refused(journal, worker, update),
            kept: Value::Number(messages),
            lawful: Value::Number(u64::from(journal.options.lane)),
        },
    }
}

// The first refused update that is none of the worker's.
fn past_failure(journal: &Journal, worker: u32, updates: u32) -> Option<Failure>
    requires short { HasCountableLines journal.now }
    requires worker { worker < length journal.now.lists.refused.items }
    ensures { let j = content_of journal.now in MatchOption result (NonePast (refused_by j worker) updates)
        (λ failure. (k : ℕ) × IsFirstPast (refused_by j worker) updates k
        × (failure ≡ record { line = refused_line j worker k; kept = Value.Number k; lawful = Value.Number updates })) }
{
    let refused = journal.lists.refused.get(worker);
    if updates > refused.len() {
        return None;
    }
    let place = refused.next(updates);
    if place < refused.len() {
        Some(Failure {
            line: line_of_refused(journal, worker, place),
            kept: Value::Number(u64::from(place)),
            lawful: Value::Number(u64::from(updates)),
        })
    } else {
        None
    }
}
