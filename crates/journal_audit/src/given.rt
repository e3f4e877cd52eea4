ghost use Rattle.std.specs.Prelude.{◌≡◌, ◌<◌, ◌≤◌, length, map, IfOk, None};
ghost use Rattle.hash_rows.specs.Lawful.{IsLawful};
ghost use Rattle.hash_rows.specs.Limits.{most_records};
ghost use Rattle.octo_text.specs.Content.{content_of};
ghost use Rattle.shares.specs.Owners.{AreOwners};
ghost use Rattle.audit_law.specs.Tests.{first_failing};
ghost use Rattle.audit_law.specs.WorkerTests.{all_given, all_worker_tests, given_by, worker_tests};
ghost use Rattle.octo_text.specs.Readable.{HasWorkers, HasCountableLines};

use crate::workers::worker_failure;
use audit_law::Failure;
use flow_base::NoMemory;
use hash_rows::{Kind, Packet, Push};
use octo_text::Journal;
use push_replay::replay_worker;
use shares::{Owners, owners_of, positions_of};
use std::alloc::Global;

/// The messages that the refused updates of a worker determine, and the first test of it that
/// fails.
#[derive(Drop)]
struct GivenWorker {
    messages: Vec<Push>,
    failure: Option<Failure>,
}

/// Those of each worker, up to the first that fails.
#[derive(Drop)]
pub struct Given {
    pub messages: Vec<Vec<Push>>,
    pub failure: Option<Failure>,
}

/// Counts the updates of the workers again, one worker after another, until a test of one fails.
pub fn given_of<K: Kind>(
    alloc: Global,
    packets: &[Packet],
    journal: &Journal,
) -> Result<Given, NoMemory>
    requires lawful { IsLawful journal.now.options }
    requires sketch { journal.now.options.sketch ≡ K.sketch }
    requires few { length packets.now ≤ most_records }
    requires short { HasCountableLines journal.now }
    requires workers { HasWorkers journal.now }
    ensures failure { IfOk result (λ given. given.failure
        ≡ first_failing (all_worker_tests packets.now journal.now.options (content_of journal.now))) }
    ensures messages { IfOk result (λ given. given.failure ≡ None
        → map (λ v. v.items) given.messages.items ≡ all_given packets.now journal.now.options (content_of journal.now)) }
{
    let workers = journal.options.workers;
    let owners = owners_of(alloc, packets, &journal.options)?;
    let mut messages = Vec::with_capacity(alloc, workers as usize)?;
    for worker in 0..workers {
        let given = given_worker::<K>(alloc, packets, journal, &owners, worker)?;
        if given.failure.is_some() {
            return Ok(Given {
                messages,
                failure: given.failure,
            });
        }
        messages.push_reserved(given.messages);
    }
    Ok(Given {
        messages,
        failure: None,
    })
}

fn given_worker<K: Kind>(
    alloc: Global,
    packets: &[Packet],
    journal: &Journal,
    owners: &Owners,
    worker: u32,
) -> Result<GivenWorker, NoMemory>
    requires lawful { IsLawful journal.now.options }
    requires sketch { journal.now.options.sketch ≡ K.sketch }
    requires few { length packets.now ≤ most_records }
    requires short { HasCountableLines journal.now }
    requires workers { HasWorkers journal.now }
    requires owners { AreOwners journal.now.options packets.now owners.now }
    requires worker { worker < journal.now.options.workers }
    ensures messages { IfOk result (λ given. given.messages.items
        ≡ given_by packets.now journal.now.options (content_of journal.now) worker) }
    ensures failure { IfOk result (λ given. given.failure
        ≡ first_failing (worker_tests packets.now journal.now.options (content_of journal.now) worker)) }
{
    let options = &journal.options;
    let positions = positions_of(alloc, owners, worker, packets, options)?;
    let updates = options.shape.rows * positions.len();
    let refused = journal.lists.refused.get(worker);
    let replay = replay_worker::<K>(alloc, worker, packets, &positions, options, refused)?;
    let fault = replay.fault;
    let messages = replay.into_messages();
    let failure = worker_failure(journal, worker, &messages, fault, updates);
    Ok(GivenWorker { messages, failure })
}
