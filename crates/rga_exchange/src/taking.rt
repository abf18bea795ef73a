//! The lines of a stream, taken in turn into whatever takes operations.
ghost use Rattle.std.specs.Prelude.{◌≡◌, ◌≢◌, ◌+◌, ◌*◌, ◌^◌, ◌<◌, ◌≤◌, ◌||◌, ℕ, List, length, [], ◌∷◌, ◌++◌, false, Ok, take, Err, None, IfOk, IfErr, IfSome, MatchOption};
ghost use Rattle.rga_ops.specs.Prelude.{taken};
ghost use Rattle.rga_exchange.specs.Counting.{CountsAs, OnBytes};
ghost use Rattle.rga_lines.specs.Log.{operations_of};
ghost use Rattle.rga_lines.specs.Stream.{EndsNextLine, next_of};
ghost use Rattle.rga_lines.specs.Table.{any_line_at};
ghost use Rattle.rga_lines.specs.declared.fault.LineFault.TheVariants.{Long};
ghost use Rattle.rga_exchange.specs.DeletionRuns.{is_deletion_run, has_deletion_runs};
ghost use Rattle.rga_exchange.specs.Taking.{AtFault, refused_at, taken_whole};
ghost use Rattle.rga_exchange.specs.Taking.{intake, HasTakenLines, HasTakenWholeLines};
ghost use Rattle.rga_exchange.specs.Parts.{stage, left_at, line_outcome, head_answer, TakesAs, TakesLines};
ghost use Rattle.rga_exchange.specs.Parts.{LeadsTo, EndsAs, HasTakenAllBut, SaysAlone, StopsReading};
ghost use Rattle.rga_exchange.specs.declared.fault.LogFault.TheVariants.{Read as ReadFailed};
ghost use Rattle.rga_exchange.specs.Memory.{LogMemory as Memory};

use crate::Counted;
use crate::block::BLOCK;
use crate::fault::LogFault;
use rga_lines::{Line, LineFault, Splitter, read_any, read_deletion, read_insertions};
use rga_ops::{Op, Refusal};
use rga_store::Taker;
use std::alloc::Global;
use std::io::Read;

/// What a stream of lines is, as contracts name it.
#[derive(Clone, Copy)]
pub enum Form {
    /// A log: the lines of operations alone.
    Log,
    /// An exchange: their first line may be a head, and one of them ends it.
    Exchange,
}

/// Where the lines of a stream came to an end, and how many were taken before, with how many
/// operations: a line may stand for 4096 of them, so that they need more than 64 bits.
pub(crate) struct Stream {
    pub(crate) lines: u64,
    pub(crate) operations: u128,
    pub(crate) end: StreamEnd,
}

pub(crate) enum StreamEnd {
    /// The end line, which names so many operations.
    EndLine(u64),
    /// The end of the input, behind this rest.
    Input(Vec<u8>),
}

/// Takes the operations of the lines of a stream of that form up to the end line, or to the end of
/// the input. Before each read the whole lines read so far are taken, and none follows that of the
/// end line. `deletion_runs` becomes true at a line that is a run of deletions.
pub(crate) fn take_stream<T: Taker, R: Read>(
    alloc: Global,
    form: Form,
    taker: &mut T,
    reader: &mut Counted<R>,
    deletion_runs: &mut bool,
) -> Result<Stream, LogFault>
    // However the reads cut the bytes, they lead to what all of them lead to.
    ensures end { let took = intake T.limit T.content T.follows taker.old taker.new in
        IfOk result (λ s. OnBytes R.remaining reader.old
        (λ bytes. EndsAs form took bytes s.lines s.operations s.end)) }
    ensures fault { let took = intake T.limit T.content T.follows taker.old taker.new in
        IfErr result (λ e. e ≢ ReadFailed → e ≢ Memory → OnBytes R.remaining reader.old
        (λ bytes. (n : ℕ) × LeadsTo form took bytes n (AtFault e))) }

    // Whatever the answer, all lines that were whole before the last block were taken, the first
    // ones of those that end in it, and nothing else.
    ensures lines { HasTakenLines form R.remaining reader.old reader.new
        (intake T.limit T.content T.follows taker.old taker.new) }
    ensures whole_lines { IfErr result (λ e. e ≡ ReadFailed → HasTakenWholeLines form R.remaining
        reader.old reader.new (intake T.limit T.content T.follows taker.old taker.new)) }
    ensures rest { let took = intake T.limit T.content T.follows taker.old taker.new in
        IfOk result (λ s. IfSome (left_at s.end) (λ rest. HasTakenAllBut form R.remaining
        reader.old reader.new took (stage s.lines s.operations rest))) }
    ensures last { IfOk result (λ s. StopsReading form R.remaining reader.old reader.new s.end) }
    // At the end of the input all are told of but the rest.
    ensures deletion_runs { IfOk result (λ s. IfSome (left_at s.end) (λ rest.
        OnBytes R.remaining reader.old (λ bytes. (deletion_runs.old || has_deletion_runs bytes)
        ≡ (deletion_runs.new || is_deletion_run (any_line_at rest))))) }
    ensures device { CountsAs ReadFailed result reader.old reader.new }
    ensures limit { T.limit taker.new ≡ T.limit taker.old }
    ensures bound { IfOk result (λ s. s.lines < 2 ^ 63) }
{
    let mut splitter = Splitter::new(alloc);
    let mut ops = Vec::new(alloc);
    let mut lines = 0u64;
    let mut operations = 0u128;
    let mut block = [0u8; BLOCK];
    'reads: loop {
        if let Some(number) = take_lines(
            alloc,
            form,
            taker,
            &mut splitter,
            &mut ops,
            &mut lines,
            &mut operations,
            deletion_runs,
        )? {
            return Ok(Stream {
                lines,
                operations,
                end: StreamEnd::EndLine(number),
            });
        }
        let Ok(count) = reader.read(&mut block) else {
            return Err(LogFault::Read);
        };
        if count == 0 {
            return Ok(Stream {
                lines,
                operations,
                end: StreamEnd::Input(splitter.finish()),
            });
        }
        splitter.feed(&block[..count])?;
    }
}

/// Takes the whole lines that the splitter has, behind so many others, up to the end line: then
/// the number that it names is the answer. What stands in the list of operations counts for nothing:
/// its places are used again.
fn take_lines<T: Taker>(
    alloc: Global,
    form: Form,
    taker: &mut T,
    splitter: &mut Splitter,
    ops: &mut Vec<Op>,
    lines: &mut u64,
    operations: &mut u128,
    deletion_runs: &mut bool,
) -> Result<Option<u64>, LogFault>
    requires few { operations.old ≤ 2 ^ 64 * lines.old }
    requires whole { splitter.old.broken ≡ false }
    requires room { lines.old + length splitter.old.waiting < 2 ^ 63 }
    ensures taken { TakesLines form (intake T.limit T.content T.follows taker.old taker.new)
        (stage lines.old operations.old splitter.old.waiting)
        lines.new operations.new splitter.new result }
    ensures deletion_runs { result ≡ Ok None → (more : List ℕ)
        → (deletion_runs.old || has_deletion_runs (splitter.old.waiting ++ more))
        ≡ (deletion_runs.new || has_deletion_runs (splitter.new.waiting ++ more)) }
    ensures few { operations.new ≤ 2 ^ 64 * lines.new }
    ensures device { IfErr result (λ e. e ≢ ReadFailed) }
    ensures bound { lines.new ≤ lines.old + length splitter.old.waiting }
    ensures limit { T.limit taker.new ≡ T.limit taker.old }
{
    'lines: loop {
        let next = match find_next(splitter) {
            Ok(Some(next)) => next,
            Ok(None) => return Ok(None),
            Err(fault) => return Err(LogFault::Line(*lines + 1, fault)),
        };
        match take_line(
            alloc,
            form,
            taker,
            ops,
            *lines + 1,
            splitter.line(next.end),
            next.insertion,
            deletion_runs,
        )? {
            LineTaken::Operations(count) => *operations += u128::from(count),
            LineTaken::EndLine(number) => return Ok(Some(number)),
        }
        splitter.pass_line(next.end);
        *lines += 1;
    }
}

/// Where the next line ends, and the insertion that it says, if that was seen at once.
#[derive(Clone, Copy)]
struct Next {
    end: usize,
    insertion: Option<Op>,
}

/// The next whole line; `None` if none is left. Most are insertions: of these no newline is looked
/// for. `Long` as of `Splitter::find_line`.
#[inline(always)]
fn find_next(splitter: &mut Splitter) -> Result<Option<Next>, LineFault>
    ensures found { IfOk result (λ o. (splitter.new ≡ splitter.old)
        × MatchOption o (next_of splitter.old ≡ (Ok None, splitter.old))
        (λ next. EndsNextLine splitter.old next.end
        × IfSome next.insertion (SaysAlone (take next.end splitter.old.waiting)))) }
    ensures err { IfErr result (λ e. (e ≡ Long)
        × (next_of splitter.old ≡ (Err Long, splitter.new))) }
{
    if let Some((op, end)) = splitter.find_insertion() {
        return Ok(Some(Next {
            end,
            insertion: Some(op),
        }));
    }
    match splitter.find_line() {
        Ok(Some(end)) => Ok(Some(Next {
            end,
            insertion: None,
        })),
        Ok(None) => Ok(None),
        Err(fault) => Err(fault),
    }
}

/// What a line is that was taken.
pub(crate) enum LineTaken {
    /// So many operations, which all are taken. The head of an exchange has none.
    Operations(u64),
    /// The end line, which names so many operations.
    EndLine(u64),
}

/// Takes the operations of a whole line, all or none, passes over the head of an exchange, or
/// answers the number that the end line names. The insertions of a run are read into the list, in
/// place of what stood there.
#[inline(always)]
fn take_line<T: Taker>(
    alloc: Global,
    form: Form,
    taker: &mut T,
    ops: &mut Vec<Op>,
    number: u64,
    line: &[u8],
    insertion: Option<Op>,
    deletion_runs: &mut bool,
) -> Result<LineTaken, LogFault>
    requires insertion { IfSome insertion (SaysAlone line.now) }
    ensures taken { TakesAs (intake T.limit T.content T.follows taker.old taker.new)
        (line_outcome form T.limit T.content taker.old number line.now)
        (operations_of (line.now ∷ [])) result }
    ensures deletion_runs { result ≢ Err Memory → deletion_runs.new
        ≡ (deletion_runs.old || is_deletion_run (any_line_at line.now)) }
    ensures limit { T.limit taker.new ≡ T.limit taker.old }
{
    if let Some(insertion) = insertion {
        return take(taker, number, insertion);
    }
    if let Some(deletion) = read_deletion(line) {
        return take(taker, number, deletion);
    }
    match read_insertions(ops, line) {
        Ok(true) => take_all(taker, number, ops),
        Ok(false) => take_other(alloc, form, taker, number, line, deletion_runs),
        Err(memory) => Err(LogFault::Memory(memory)),
    }
}

/// The same of any line, whatever it is.
pub(crate) fn take_other<T: Taker>(
    alloc: Global,
    form: Form,
    taker: &mut T,
    number: u64,
    line: &[u8],
    deletion_runs: &mut bool,
) -> Result<LineTaken, LogFault>
    ensures taken { TakesAs (intake T.limit T.content T.follows taker.old taker.new)
        (line_outcome form T.limit T.content taker.old number line.now)
        (operations_of (line.now ∷ [])) result }
    ensures deletion_runs { result ≢ Err Memory → deletion_runs.new
        ≡ (deletion_runs.old || is_deletion_run (any_line_at line.now)) }
    ensures limit { T.limit taker.new ≡ T.limit taker.old }
{
    match read_any(alloc, line) {
        Ok(Line::One(op)) => take(taker, number, op),
        Ok(Line::Run(run)) => {
            let ops = run.ops(alloc)?;
            take_all(taker, number, &ops)
        }
        Ok(Line::Deletions(run)) => {
            *deletion_runs = true;
            let ops = run.ops(alloc)?;
            take_all(taker, number, &ops)
        }
        Ok(Line::Head) => pass_head(form, number),
        Ok(Line::Last(count)) => Ok(LineTaken::EndLine(count)),
        Err(LineFault::Memory(memory)) => Err(LogFault::Memory(memory)),
        Err(fault) => Err(LogFault::Line(number, fault)),
    }
}

/// Passes over a head as the line with this number, where it is the first one of an exchange.
fn pass_head(form: Form, number: u64) -> Result<LineTaken, LogFault>
    ensures { result ≡ head_answer form number }
{
    match form {
        Form::Exchange if number == 1 => Ok(LineTaken::Operations(0)),
        _ => Err(LogFault::Line(number, LineFault::Kind)),
    }
}

/// Takes the operation of the line with this number.
pub(crate) fn take<T: Taker>(taker: &mut T, number: u64, op: Op) -> Result<LineTaken, LogFault>
    ensures taken { TakesAs (intake T.limit T.content T.follows taker.old taker.new)
        (refused_at number (taken (T.limit taker.old) (T.content taker.old) op)) (op ∷ []) result }
    ensures limit { T.limit taker.new ≡ T.limit taker.old }
{
    match taker.apply(op) {
        Ok(_) => Ok(LineTaken::Operations(1)),
        Err(Refusal::Memory(memory)) => Err(LogFault::Memory(memory)),
        Err(refusal) => Err(LogFault::Refused(number, refusal)),
    }
}

/// Takes the operations that the line with this number stands for, all or none.
fn take_all<T: Taker>(taker: &mut T, number: u64, ops: &[Op]) -> Result<LineTaken, LogFault>
    ensures taken { TakesAs (intake T.limit T.content T.follows taker.old taker.new)
        (refused_at number (taken_whole (T.limit taker.old) (T.content taker.old) ops.now))
        ops.now result }
    ensures limit { T.limit taker.new ≡ T.limit taker.old }
{
    match taker.apply_all(ops) {
        Ok(()) => Ok(LineTaken::Operations(ops.len() as u64)),
        Err(Refusal::Memory(memory)) => Err(LogFault::Memory(memory)),
        Err(fault) => Err(LogFault::Refused(number, fault)),
    }
}
