ghost use Rattle.std.specs.Prelude.{◌≡◌, ℕ, ◌-◌, ◌^◌, ◌<◌, ◌≤◌, ◌↔◌, ◌⊎◌, Some, List, false};
ghost use Rattle.pg_perm.specs.declared.kinds.Mode.{Mode};
ghost use Rattle.protogen_cli.specs.declared.words.Machine.TheVariants.{Controllers};
ghost use Rattle.protogen_cli.specs.declared.words.Command.TheVariants.{Run};
ghost use Rattle.protogen_cli.specs.Runs.{HasRun};
ghost use Rattle.protogen_cli.specs.Words.{word_bytes, is_taken, command_of as command_of_words};
ghost use Rattle.protogen_cli.specs.Statuses.{IsReplied, IsOfText};
ghost use Rattle.pg_io.specs.ReadAll.{GaveCount};
ghost use Rattle.protogen_cli.specs.Replies.{Reply, answer};
ghost use Rattle.protogen_cli.specs.Ends.{outside, Tells, IsReadToEnd, Ends};

use crate::judge::{NoReport, judge};
use crate::status::Status;
use crate::words::command_of;
use pg_io::{Sink, Source, write_all};
use std::alloc::Global;

/// Does what the words ask, from the source to the sink.
///
/// `check` reads the source to its end and judges what it gave as the text of a protocol. It writes `ok`, or `line L rule R` for the first
/// line L that breaks a rule and the first rule R that it breaks. The other commands do the same where a line breaks a rule. Where none does,
/// `atomic` takes what stands after the text's `end` line as a script and writes the histories of the script's blocks on the atomic machine,
/// or `script line L rule R` for the first line L of the script that breaks a rule and the first such rule R; `compile --mode stall` and
/// `compile --mode defer` write the tables of the protocol's controllers; and `run --mode M --seed N` writes the histories of the script's blocks on
/// these controllers, whose messages are delivered on the schedule of the seed. The clause `run` says what such a history is. All write `too long` where the source gave 1,048,577 bytes, which
/// is one more than an input may have. At other words it reads nothing and writes `usage`. All that is written is made before any of it is
/// written.
///
/// `ReadFault` and `WriteFault` come as soon as the source or the sink has failed, and `Memory` where there was none left
/// for the input, for what is read from it or for the output.
pub fn protogen<S: Source, K: Sink>(
    alloc: Global,
    words: &[String],
    source: &mut S,
    sink: &mut K,
) -> Status
    requires reads { S.faults source.old < 2 ^ 64 - 1 }
    requires writes { K.faults sink.old < 2 ^ 64 - 1 }

    ensures answer { (input : List ℕ) × Tells (S.left source.old) input
        × Ends result (answer (word_bytes words.now) input)
        (outside (K.held sink.old) (S.faults source.old) (K.faults sink.old))
        (outside (K.held sink.new) (S.faults source.new) (K.faults sink.new)) }
    ensures complete { (input : List ℕ) → S.left source.old ≡ Some input
        → S.faults source.new ≡ S.faults source.old → K.faults sink.new ≡ K.faults sink.old
        → (result ≡ (answer (word_bytes words.now) input).status) ⊎ (result ≡ Status.Memory) }

    ensures run { (mode : Mode) (seed : ℕ) → command_of_words (word_bytes words.now) ≡ Some (Run (Controllers mode seed)) → result ≡ Status.Done
        → HasRun (S.left source.old) (K.held sink.old) (K.held sink.new) }

    ensures usage { (result ≡ Status.Usage)
        ↔ ((is_taken (word_bytes words.now) ≡ false) × (K.faults sink.new ≡ K.faults sink.old)) }
    ensures unread { is_taken (word_bytes words.now) ≡ false → source.new ≡ source.old }
    ensures whole { IsOfText result → IsReadToEnd (S.left source.old) (S.left source.new) }
    ensures taken { GaveCount (S.left source.old) (S.left source.new) (λ count. count ≤ 1048577) }
    ensures too_long { result ≡ Status.TooLong → GaveCount (S.left source.old) (S.left source.new) (λ count. count ≡ 1048577) }

    ensures read_fault { (result ≡ Status.ReadFault) ↔ (S.faults source.old < S.faults source.new) }
    ensures write_fault { (result ≡ Status.WriteFault) ↔ (K.faults sink.old < K.faults sink.new) }
{
    let Some(command) = command_of(words) else {
        return finish(sink, Status::Usage, b"usage\n");
    };
    match judge(alloc, command, source) {
        Ok(report) => finish(sink, report.status(), report.bytes()),
        Err(NoReport::Fault) => Status::ReadFault,
        Err(NoReport::Memory) => Status::Memory,
    }
}

// Writes the bytes, and answers the status if they could all be written.
fn finish<K: Sink>(sink: &mut K, status: Status, bytes: &[u8]) -> Status
    requires countable { K.faults sink.old < 2 ^ 64 - 1 }
    requires replied { IsReplied status }

    ensures ends { (faults : ℕ) → let due : Reply = record { status = status; bytes = bytes.now } in
        Ends result due (outside (K.held sink.old) faults (K.faults sink.old))
        (outside (K.held sink.new) faults (K.faults sink.new)) }
    ensures fault { (result ≡ Status.WriteFault) ↔ (K.faults sink.old < K.faults sink.new) }
    ensures status { K.faults sink.new ≡ K.faults sink.old → result ≡ status }
{
    match write_all(sink, bytes) {
        Ok(()) => status,
        Err(_) => Status::WriteFault,
    }
}
