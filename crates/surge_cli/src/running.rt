//! The program as one call.

ghost use Rattle.std.specs.Prelude.{◌≡◌, ◌⊎◌, map, string_bytes, IfSome};
ghost use Rattle.std.specs.IoError.{error_kind};
ghost use Rattle.std.specs.declared.io.ErrorKind.TheVariants.{OutOfMemory};
ghost use Rattle.surge_cli.specs.StatusText.{status_line};
ghost use Rattle.surge_cli.specs.Words.{command_line};
ghost use Rattle.surge_cli.specs.Expected.{Expectation, Expects, told};
ghost use Rattle.surge_cli.specs.Headline.{Means};
ghost use Rattle.surge_cli.specs.Reaches.{Reaches};
ghost use Rattle.surge_cli.specs.Once.{ReadsOnce};
ghost use Rattle.surge_cli.specs.Causes.{OfWords, NamesNone, IsReplay, counts, AsksOnly, Causes, AgreesWith, Reports};
ghost use Rattle.surge_cli.specs.Completing.{NothingFailed, Completes};

use crate::named_files::NamedFiles;
use crate::session::do_due;
use crate::stages::prepare;
use crate::status::Status;
use std::alloc::Global;
use std::io;
use surge_outside::{NoMemory, Sink, Trouble, put_all};
use vertex_lang::Updater;

// Reads, runs and writes.
fn run<F: NamedFiles, O: Sink, U: Updater>(
    alloc: Global,
    words: &[String],
    files: &mut F,
    out: &mut O,
    updater: &mut U,
) -> Status
    ensures headline { Means U.answer (told (F.state files.old).held (map string_bytes words.now)) (map string_bytes words.now) result (O.written out.old) (O.written out.new) (U.calls updater.old) (U.calls updater.new) }
    ensures words { OfWords (command_line (map string_bytes words.now)) result }
    ensures unread { NamesNone (command_line (map string_bytes words.now)) → files.new ≡ files.old }
    ensures uncalled { IsReplay (command_line (map string_bytes words.now)) → updater.new ≡ updater.old }
    ensures causes { Causes (Reaches (F.state files.old).held (map string_bytes words.now)) result (counts (F.state files.old) (O.faults out.old)) (counts (F.state files.new) (O.faults out.new)) }
    ensures asked { AsksOnly (Reaches (F.state files.old).held (map string_bytes words.now)) (F.state files.old).asked (F.state files.new).asked }
    ensures once { ReadsOnce (F.state files.old).held (map string_bytes words.now) (F.state files.old) (F.state files.new) }
{
    match prepare(alloc, files, words) {
        Ok(due) => match do_due(alloc, &due, out, updater) {
            Ok(()) => Status::Done,
            Err(Trouble::Failed) => Status::WriteFault,
            Err(Trouble::NoMemory) => Status::NoMemory,
        },
        Err(status) => status,
    }
}

// Writes this line of a status. Where that finds no memory, this is the status.
fn write_line<E: Sink>(status: Status, line: &str, err: &mut E) -> Status
    requires ended { status ≡ Status.Done → ⊥ }
    requires line { line.now ≡ status_line status }
    ensures same { (result ≡ status) ⊎ (result ≡ Status.NoMemory) }
    ensures line { Reports result (E.written err.old) (E.written err.new) (E.faults err.old) (E.faults err.new) }
{
    match put_all(err, line.as_bytes()) {
        Ok(()) => status,
        Err(Trouble::Failed) => status,
        Err(Trouble::NoMemory) => Status::NoMemory,
    }
}

// Writes the line of a status. Where it finds no memory for that, this is the status, and no second line is begun.
fn report_line<E: Sink>(alloc: Global, status: Status, err: &mut E) -> Status
    requires { status ≡ Status.Done → ⊥ }
    ensures same { (result ≡ status) ⊎ (result ≡ Status.NoMemory) }
    ensures line { Reports result (E.written err.old) (E.written err.new) (E.faults err.old) (E.faults err.new) }
{
    match status.line(alloc) {
        Ok(line) => write_line(status, line.as_str(), err),
        Err(NoMemory) => Status::NoMemory,
    }
}

// Writes the line of a status, if it has one.
fn report<E: Sink>(alloc: Global, status: Status, err: &mut E) -> Status
    ensures same { (result ≡ status) ⊎ ((result ≡ Status.NoMemory) × (status ≡ Status.Done → ⊥)) }
    ensures line { Reports result (E.written err.old) (E.written err.new) (E.faults err.old) (E.faults err.new) }
{
    match status {
        Status::Done => Status::Done,
        _ => report_line(alloc, status, err),
    }
}

/// Runs the program: reads the script that the words name and the two data files that it names, checks the script, executes
/// its statements one after the other and writes to `out` what they print: the tables of each run alone on each view of its
/// collection, those of each kept run on the views that an append adds, and the order of a collection's views where it is
/// shown; or, in the mode `check`, writes the script's canonical text. Where the words name a change text, that text is read and
/// its tables are written. A status other than [`Status::Done`] is reported to `err` as one line.
///
/// The words are the program's name and `(--script FILE | --sample N | --replay FILE) [--mode run|check|summary|changes]
/// [--turns N]`, as `clap` reads five options that each take one text; `--replay` stands without `--mode` and `--turns`. A
/// sample takes the place of the three files: of them nothing is asked then. With `summary` one line is written for each table,
/// and with `changes` the tables are written as a change text, without what is shown. A change text is judged whole before
/// anything is written. Turns draw the order in which the segments of a run are stepped, and
/// change nothing that is written. What is told of the files decides the status, unless the outside fails or memory is
/// wanting: the first refusal in the order of reading, or the output. Views and collections of views are those of
/// Graphsurge (Sahu and Salihoglu 2021).
pub fn surge<F: NamedFiles, O: Sink, E: Sink, U: Updater>(
    alloc: Global,
    words: &[String],
    files: &mut F,
    out: &mut O,
    err: &mut E,
    updater: &mut U,
) -> Status
    // The headline: what each status means, what was written by then, for every updater, and how often it was called.
    ensures headline { Means U.answer (told (F.state files.old).held (map string_bytes words.now)) (map string_bytes words.now) result (O.written out.old) (O.written out.new) (U.calls updater.old) (U.calls updater.new) }

    // What is expected of the files is the status, unless it came from the outside.
    ensures exact { IfSome (told (F.state files.old).held (map string_bytes words.now)) (λ held. (e : Expectation) → Expects held (map string_bytes words.now) e → AgreesWith result e) }

    // Where the words, the files and the script are accepted and no failure was counted, the whole output is written, or memory
    // was wanting.
    ensures complete { NothingFailed (counts (F.state files.old) (O.faults out.old)) (counts (F.state files.new) (O.faults out.new)) → Completes U.answer (F.state files.old).held (map string_bytes words.now) result (O.written out.old) (O.written out.new) }

    // Words that are not of the form are answered Usage and no others are, whatever the files do, but for want of memory. A
    // fault of data or of a script comes to no words that name a change text, and that of a change text to no others.
    ensures words { OfWords (command_line (map string_bytes words.now)) result }

    // Where the words name no file, nothing is asked of the files.
    ensures unread { NamesNone (command_line (map string_bytes words.now)) → files.new ≡ files.old }

    // Where the words name a change text, the updater is not called.
    ensures uncalled { IsReplay (command_line (map string_bytes words.now)) → updater.new ≡ updater.old }

    // An absence, a read fault or a write fault comes only where its count rose, and one of a file only where that file was
    // reached. Behind that file no other was asked for.
    ensures causes { Causes (Reaches (F.state files.old).held (map string_bytes words.now)) result (counts (F.state files.old) (O.faults out.old)) (counts (F.state files.new) (O.faults out.new)) }

    // Of a name that no file has which was reached, nothing is asked: not the data where the script is absent or refused, nor
    // the edges where the nodes are absent or too large.
    ensures asked { AsksOnly (Reaches (F.state files.old).held (map string_bytes words.now)) (F.state files.old).asked (F.state files.new).asked }

    // A file is read once for each place in which it is named: no place of it is asked for again.
    ensures once { ReadsOnce (F.state files.old).held (map string_bytes words.now) (F.state files.old) (F.state files.new) }

    // One line on standard error, and none where the run is done.
    ensures line { Reports result (E.written err.old) (E.written err.new) (E.faults err.old) (E.faults err.new) }
{
    let status = run(alloc, words, files, out, updater);
    report(alloc, status, err)
}

/// The status where the words of the command line could not be had, which is reported to `err` as one line: words that
/// are not text are not of the form.
pub fn refuse_words<E: Sink>(alloc: Global, error: &io::Error, err: &mut E) -> Status
    ensures memory { error_kind error.now ≡ OutOfMemory → result ≡ Status.NoMemory }
    ensures usage { (error_kind error.now ≡ OutOfMemory → ⊥) → (result ≡ Status.Usage) ⊎ (result ≡ Status.NoMemory) }
    ensures line { Reports result (E.written err.old) (E.written err.new) (E.faults err.old) (E.faults err.new) }
{
    let status = match error.kind() {
        io::ErrorKind::OutOfMemory => Status::NoMemory,
        _ => Status::Usage,
    };
    report(alloc, status, err)
}
