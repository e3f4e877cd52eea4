ghost use Rattle.std.specs.Prelude.{◌≡◌, ℕ, ◌++◌, List, IfOk, string_bytes, map};
ghost use Rattle.capture_load.specs.Generated.{generated};
ghost use Rattle.hash_rows.specs.declared.options.Mode.{Mode};
ghost use Rattle.hash_rows.specs.declared.options.Options.{Options};
ghost use Rattle.flow_base.specs.declared.status.Status.{Status};
ghost use Rattle.listed.specs.Listed.{Listed};
ghost use Rattle.prefixes.specs.declared.network.Prefix.{Prefix};
ghost use Rattle.octo_run.specs.Audits.{IsAuditText};
ghost use Rattle.octo_run.specs.Epochs.{IsEpochsText};
ghost use Rattle.octo_run.specs.Networks.{IsPrefixText};
ghost use Rattle.octo_run.specs.Runs.{IsRunText};
ghost use Rattle.words.specs.Options.{Gives};
ghost use Rattle.words.specs.declared.command.Command.{Command};

use flow_base::{MemSink, MemSource, NoMemory, Status};
use octo_run::{OpenGate, octo, one_epochs_text, one_prefix_text, one_text};
use std::alloc::Global;
use std::sync::Wait;
use std::thread::Threads;

/// What the top call's contract alone says to a caller whose source and output tell their bytes:
/// where the run is done, the output is what it was and, behind it, the one text of these bytes or,
/// with `load`, of the generated ones. With `audit` these bytes are then a lawful journal and its
/// capture.
pub fn whole_run<R: Threads + Wait + Sync>(
    rt: &R,
    alloc: Global,
    words: &[String],
    bytes: &[u8],
    out: &mut MemSink,
    err: &mut MemSink,
) -> Result<Status, NoMemory>
    ensures run { IfOk result (λ status. status ≡ Status.Done
        → (o : Options) → Gives (map string_bytes words.now) (Command.Run o) → o.mode ≡ Mode.Rounds
        → (text : List ℕ) → IsRunText o bytes.now text → out.new.held ≡ out.old.held ++ text) }
    ensures load { IfOk result (λ status. status ≡ Status.Done
        → (n k : ℕ) → (o : Options) → Gives (map string_bytes words.now) (Command.Load n k o) → o.mode ≡ Mode.Rounds
        → (text : List ℕ) → IsRunText o (generated n k) text → out.new.held ≡ out.old.held ++ text) }
    ensures prefix { IfOk result (λ status. status ≡ Status.Done
        → (o : Options) (w : Listed Prefix) → Gives (map string_bytes words.now) (Command.Prefix o w)
        → (text : List ℕ) → IsPrefixText o w.items bytes.now text → out.new.held ≡ out.old.held ++ text) }
    ensures epochs { IfOk result (λ status. status ≡ Status.Done
        → (size change : ℕ) (o : Options) → Gives (map string_bytes words.now) (Command.Epochs size change o)
        → (text : List ℕ) → IsEpochsText size change o bytes.now text → out.new.held ≡ out.old.held ++ text) }
    ensures audit { IfOk result (λ status. status ≡ Status.Done → Gives (map string_bytes words.now) Command.Audit
        → (text : List ℕ) × IsAuditText bytes.now text × (out.new.held ≡ out.old.held ++ text)) }
{
    one_text();
    one_prefix_text();
    one_epochs_text();
    let mut source = MemSource::new(alloc, bytes, 4096, &[])?;
    Ok(octo(rt, alloc, words, &mut source, out, err, &OpenGate))
}
