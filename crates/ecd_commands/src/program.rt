//! The program as a call on the outside that it is handed.

ghost use Rattle.std.specs.Prelude.{◌≡◌, ◌≢◌, ◌≤◌, ◌⊎◌, ◌↔◌, ℕ, List, [], true, IsSome};
ghost use Rattle.ecd_outside.specs.Causes.{Rose, IsFaultFree};
ghost use Rattle.ecd_commands.specs.Asked.{IsInTable, ForAsked, bytes_of};
ghost use Rattle.ecd_commands.specs.Outcomes.{Outcome, status_of, Done as DoneOutcome, Usage as UsageOutcome, TooLarge as TooLargeOutcome, ReadFault as ReadFaultOutcome, WriteFault as WriteFaultOutcome};
ghost use Rattle.ecd_commands.specs.Files.{files_of, TakesFew};
ghost use Rattle.ecd_commands.specs.Causes.{IsDue, IsAcceptedFor, IsDecided, MayFailToRead, MayWrite, StopsAt, Writes, WritesFront};
ghost use Rattle.ecd_commands.specs.Ends.{Ended, StopsAtNamed};
ghost use Rattle.ecd_commands.specs.Answers.{outcome_of};

use crate::answer::{Answer, Line, OUT_OF_MEMORY, line_for, tell};
use crate::commands::text_of;
use crate::status::Status;
use crate::words::command_in;
use ecd_list::OutOfMemory;
use ecd_outside::{Failed, Files, Sink, put_all};
use std::alloc::Global;

/// Does what the words ask for.
fn answer_to<'a, F: Files, O: Sink>(
    alloc: Global,
    words: &'a [String],
    files: &mut F,
    out: &mut O,
) -> Answer<'a>
    ensures usage { (outcome_of result ≡ UsageOutcome) ↔ ¬ IsInTable (bytes_of words.now) }
    ensures in_table { (outcome_of result ≡ UsageOutcome) ⊎ IsInTable (bytes_of words.now) }
    ensures usage_untouched { outcome_of result ≡ UsageOutcome → files.new ≡ files.old }
    ensures read_fault { outcome_of result ≡ ReadFaultOutcome
        → ForAsked (bytes_of words.now) (λ asked. MayFailToRead (F.told files.old) asked (F.faults files.old) (F.faults files.new)) }
    ensures stops { (name : List ℕ) → outcome_of result ≡ TooLargeOutcome name
        → ForAsked (bytes_of words.now) (λ asked. StopsAt (F.told files.old) asked (F.begun files.new) (F.left files.new) name) }
    ensures due { IsDecided (outcome_of result) → ForAsked (bytes_of words.now) (λ asked. IsDue (F.told files.old) asked (outcome_of result)) }
    ensures write_fault { outcome_of result ≡ WriteFaultOutcome → Rose (O.faults out.old) (O.faults out.new) }
    ensures front { outcome_of result ≡ WriteFaultOutcome
        → ForAsked (bytes_of words.now) (λ asked. WritesFront (F.told files.old) asked (O.written out.old) (O.written out.new)) }
    ensures done { outcome_of result ≡ DoneOutcome
        → ForAsked (bytes_of words.now) (λ asked. Writes (F.told files.old) asked (O.written out.old) (O.written out.new)) }
    ensures keeps { ¬ MayWrite (status_of (outcome_of result)) → out.new ≡ out.old }
    ensures untouched { ForAsked (bytes_of words.now) (λ asked. files_of asked ≡ [] → files.new ≡ files.old) }
    ensures few { ForAsked (bytes_of words.now) (λ asked. files_of asked ≢ [] → F.begun files.new ≡ true → TakesFew (F.told files.old) (files_of asked) (F.left files.new)) }
    ensures told { F.told files.new ≡ F.told files.old }
    ensures files_later { F.faults files.old ≤ F.faults files.new }
    ensures out_later { O.faults out.old ≤ O.faults out.new }
{
    let Some(command) = command_in(words) else {
        return Answer::Usage;
    };
    let text = match text_of(alloc, &command, files) {
        Ok(text) => text,
        Err(answer) => return answer,
    };
    match put_all(out, text.as_slice()) {
        Ok(()) => Answer::Done,
        Err(Failed) => Answer::WriteFault,
    }
}

/// Does what the words ask for over the files, writes to `out`, and tells a refusal on `err`.
pub fn run<F: Files, O: Sink, E: Sink>(
    alloc: Global,
    words: &[String],
    files: &mut F,
    out: &mut O,
    err: &mut E,
) -> Status
    // 3: exactly where the words are not in the table. Then no file is begun.
    ensures usage { (result ≡ Status.Usage) ↔ ¬ IsInTable (bytes_of words.now) }
    ensures in_table { (result ≡ Status.Usage) ⊎ IsInTable (bytes_of words.now) }
    ensures usage_untouched { result ≡ Status.Usage → files.new ≡ files.old }

    // 4: only where the count of faults rose, or stands at its last value, or the first file that is not read is not there.
    ensures read_fault { result ≡ Status.ReadFault
        → ForAsked (bytes_of words.now) (λ asked. MayFailToRead (F.told files.old) asked (F.faults files.old) (F.faults files.new)) }

    // 1, 2, 6, 8 to 10, 12 and 13: only where the words and the contents of their files ask for it, with what the line says. The line is told.
    ensures ended { Ended (bytes_of words.now) (F.told files.old) result (E.written err.old) (E.written err.new) (E.faults err.old) (E.faults err.new) }

    // And there always, unless a fault of reading or want of memory takes its place.
    ensures refuses { ForAsked (bytes_of words.now) (λ asked. (due : Outcome) → IsSome (F.told files.old) → IsDue (F.told files.old) asked due
        → IsFaultFree (F.faults files.old) (F.faults files.new)
        → (result ≡ status_of due) ⊎ (result ≡ Status.OutOfMemory)) }

    // 6: reading stopped at the file that the line names, which is begun: exactly one byte more was taken of it than it may have.
    ensures stops { result ≡ Status.TooLarge
        → ForAsked (bytes_of words.now) (λ asked. StopsAtNamed (F.told files.old) asked (F.begun files.new) (F.left files.new) (E.written err.old) (E.written err.new) (E.faults err.old) (E.faults err.new)) }

    // 5: only where the count of faults rose, or stands at its last value. What was written is a front of the text.
    ensures write_fault { result ≡ Status.WriteFault → Rose (O.faults out.old) (O.faults out.new) }
    ensures front { result ≡ Status.WriteFault
        → ForAsked (bytes_of words.now) (λ asked. WritesFront (F.told files.old) asked (O.written out.old) (O.written out.new)) }

    // 0: a text that the words and the contents of their files ask for was written.
    ensures done { result ≡ Status.Done
        → ForAsked (bytes_of words.now) (λ asked. Writes (F.told files.old) asked (O.written out.old) (O.written out.new)) }

    // And there always, where they ask for one and no count of faults rises, unless for want of memory.
    ensures succeeds { ForAsked (bytes_of words.now) (λ asked. IsSome (F.told files.old) → IsAcceptedFor (F.told files.old) asked
        → IsFaultFree (F.faults files.old) (F.faults files.new)
        → IsFaultFree (O.faults out.old) (O.faults out.new)
        → (result ≡ Status.Done) ⊎ (result ≡ Status.OutOfMemory)) }

    // On every status but 0 and 5 `out` stays as it was.
    ensures keeps { ¬ MayWrite result → out.new ≡ out.old }

    // No file is begun for a command that reads none. Of the file begun last at most one byte more is taken than it may have.
    ensures untouched { ForAsked (bytes_of words.now) (λ asked. files_of asked ≡ [] → files.new ≡ files.old) }
    ensures few { ForAsked (bytes_of words.now) (λ asked. files_of asked ≢ [] → F.begun files.new ≡ true → TakesFew (F.told files.old) (files_of asked) (F.left files.new)) }
    ensures told { F.told files.new ≡ F.told files.old }
    ensures files_later { F.faults files.old ≤ F.faults files.new }
    ensures out_later { O.faults out.old ≤ O.faults out.new }
    ensures err_later { E.faults err.old ≤ E.faults err.new }
{
    let answer = answer_to(alloc, words, files, out);
    match line_for(alloc, &answer) {
        Ok(line) => {
            tell(&line, err);
            answer.status()
        }
        Err(OutOfMemory) => {
            tell(&Line::Fixed(OUT_OF_MEMORY), err);
            Status::OutOfMemory
        }
    }
}
