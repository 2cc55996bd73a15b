// The command `try`.
ghost use Rattle.std.specs.Prelude.{◌≡◌, ◌≢◌, ◌+◌, ◌<◌, ◌≤◌, ◌^◌, ◌++◌, ◌⊎◌, [], length, Some, IfOk, IfErr, OnOk, OnErr, IsErrOf, IsTrue, IsFalse, Err};
ghost use Rattle.sheet_outside.specs.Causes.{HasCause, Rose};
ghost use Rattle.sheet_outside.specs.Told.{Gains, WhereTold};
ghost use Rattle.sheet_lines.specs.Lines.{printed};
ghost use Rattle.sheet_lines.specs.Unread.{rest};
ghost use Rattle.sheet_lines.specs.Told.{both, GainsFront};
ghost use Rattle.sheet_lines.specs.Dividing.{StopsDividing};
ghost use Rattle.sheet_requests.specs.Bodies.{body};
ghost use Rattle.sheet_machine_laws.specs.Machine.{Holding};
ghost use Rattle.objsheet.specs.Trying.{IsDone, IsRead, IsRefused, HasCauseOfRefusal, IsStopped, IsBrokenOff};
ghost use Rattle.objsheet.specs.Serving.{Opens, IsBody, IsRefusedLength, IsLongerYet, EndsIn, EndsInput, Replies, RepliesInPart, ServesLines, ServesAll, Stops, Breaks};

use crate::opening::Opening;
use crate::session::{LONGEST_REQUEST, Session, open_session};
use crate::stop::{Ending, Stop};
use objsheet_check::definition_line;
use objsheet_status::{DONE, OUT_OF_MEMORY, REFUSED, SINK_FAILED, SOURCE_FAILED, write_last_line};
use sheet_define::DefinitionRefusal;
use sheet_define_reading::texts_stand_for_one_definition;
use sheet_lines::{LineEnd, LineReader, ReadStop, read_to_divider, without_return, write_all};
use sheet_machine::Answered;
use sheet_outside::{Disk, Failed, Sink, Source};
use sheet_requests::{Refusal, Reply};
use sheet_values::{LONGEST_DEFINITION, NoMemory, Steps};
use std::alloc::Global;
use std::marker::Brand;
use std::sync::ledger::{Blank, Ledger};

/// As much of a request line as is kept: past it a line is too long, whether or not it ends in a carriage return.
const MOST: usize = LONGEST_REQUEST + 2;

const NO_MEMORY: &[u8] = b"{\"error\":\"no memory\"}";

const TOO_LONG: &[u8] = b"{\"error\":\"body too long\",\"limit\":65536}";

/// Reads a definition, a line `%%` and request lines, and answers each request line that isn't empty with one line. The
/// operator's key is `op`.
///
/// A definition that is refused ends the run with the line that `check` writes of it. The disk isn't called.
pub fn try_lines<S: Source, K: Sink, D: Disk>(
    alloc: Global,
    input: &mut S,
    output: &mut K,
    disk: &mut D,
) -> u8
    ensures statuses { (result ≡ 0) ⊎ ((result ≡ 1) ⊎ ((result ≡ 3) ⊎ ((result ≡ 4) ⊎ (result ≡ 7)))) }
    ensures done { result ≡ 0 → WhereTold IsDone (both (S.left input.old) (K.written output.old)) (both (S.left input.new) (K.written output.new)) }
    ensures done_input { result ≡ 0 → WhereTold IsRead (S.left input.old) (S.left input.new) }
    ensures refused { result ≡ 1 → WhereTold IsRefused (both (S.left input.old) (K.written output.old)) (both (S.left input.new) (K.written output.new)) }
    ensures refused_input { result ≡ 1 → WhereTold HasCauseOfRefusal (S.left input.old) (S.left input.new) }
    ensures source { result ≡ 3 → Rose (S.faults input.old) (S.faults input.new) }
    ensures stopped { result ≡ 3 → WhereTold IsStopped (both (S.left input.old) (K.written output.old)) (both (S.left input.new) (K.written output.new)) }
    ensures sink { result ≡ 4 → Rose (K.faults output.old) (K.faults output.new) }
    ensures sink_broken { result ≡ 4 → WhereTold IsBrokenOff (both (S.left input.old) (K.written output.old)) (both (S.left input.new) (K.written output.new)) }
    ensures memory_broken { result ≡ 7 → WhereTold IsBrokenOff (both (S.left input.old) (K.written output.old)) (both (S.left input.new) (K.written output.new)) }
    ensures still { disk.new ≡ disk.old }
{
    match answer_input::<S, K, D, Brand>(alloc, Blank::new(1), input, output, disk) {
        Ok(Ending::Done) => DONE,
        Ok(Ending::Refused(line)) => write_last_line(output, line.as_slice(), REFUSED),
        Err(Stop::TooLong) => write_last_line(
            output,
            b"refused: too long, limit 1099511627776\n",
            REFUSED,
        ),
        Err(Stop::Source) => SOURCE_FAILED,
        Err(Stop::Sink) => SINK_FAILED,
        Err(Stop::NoMemory) => OUT_OF_MEMORY,
    }
}

// Reads a definition and request lines, and writes a reply to each line.
fn answer_input<S: Source, K: Sink, D: Disk, G: Ledger>(
    alloc: Global,
    blank: Blank,
    input: &mut S,
    output: &mut K,
    disk: &mut D,
) -> Result<Ending, Stop>
    requires name { blank.name ≡ G.name }
    requires parts { blank.parts ≡ G.parts }
    requires some { 0 < blank.parts }
    ensures ended { IfOk result (λ ending. WhereTold (EndsIn ending) (both (S.left input.old) (K.written output.old)) (both (S.left input.new) (K.written output.new))) }
    ensures ended_input { IfOk result (λ ending. WhereTold (EndsInput ending) (S.left input.old) (S.left input.new)) }
    ensures longer { IsErrOf result Stop.TooLong → WhereTold IsLongerYet (both (S.left input.old) (K.written output.old)) (both (S.left input.new) (K.written output.new)) }
    ensures longer_input { IsErrOf result Stop.TooLong → WhereTold (λ input left. 2 ^ 40 < length input) (S.left input.old) (S.left input.new) }
    ensures stopped { IsErrOf result Stop.Source → WhereTold IsStopped (both (S.left input.old) (K.written output.old)) (both (S.left input.new) (K.written output.new)) }
    ensures sink_broken { IsErrOf result Stop.Sink → WhereTold IsBrokenOff (both (S.left input.old) (K.written output.old)) (both (S.left input.new) (K.written output.new)) }
    ensures memory_broken { IsErrOf result Stop.NoMemory → WhereTold IsBrokenOff (both (S.left input.old) (K.written output.old)) (both (S.left input.new) (K.written output.new)) }
    ensures source { IsErrOf result Stop.Source → Rose (S.faults input.old) (S.faults input.new) }
    ensures later_source { S.faults input.old ≤ S.faults input.new }
    ensures sink { IsErrOf result Stop.Sink → Rose (K.faults output.old) (K.faults output.new) }
    ensures later_sink { K.faults output.old ≤ K.faults output.new }
    ensures still { disk.new ≡ disk.old }
{
    texts_stand_for_one_definition();
    let mut steps = Steps::<G>::start(blank);
    let mut reader = LineReader::new(alloc)?;
    match start_session(alloc, &mut reader, input)? {
        Opening::Started(session) => {
            let mut session = session;
            match answer_lines(
                alloc,
                &mut session,
                &mut reader,
                input,
                output,
                disk,
                &mut steps,
            ) {
                Ok(()) => Ok(Ending::Done),
                Err(stop) => Err(stop),
            }
        }
        Opening::Refused(line) => Ok(Ending::Refused(line)),
    }
}

// Reads the definition, and makes its starting workbook.
fn start_session<S: Source>(
    alloc: Global,
    reader: &mut LineReader,
    input: &mut S,
) -> Result<Opening, ReadStop>
    requires { reader.old.used ≡ 0 }
    ensures opened { IfOk result (λ opening. WhereTold (Opens opening) (rest reader.old (S.left input.old)) (rest reader.new (S.left input.new))) }
    ensures stopped { IsErrOf result ReadStop.Source → WhereTold StopsDividing (rest reader.old (S.left input.old)) (rest reader.new (S.left input.new)) }
    ensures counts { WhereTold (λ old new. reader.new.used + length new ≡ reader.old.used + length old) (rest reader.old (S.left input.old)) (rest reader.new (S.left input.new)) }
    ensures limit { reader.new.used ≤ 2 ^ 40 }
    ensures too_long { result ≢ Err ReadStop.TooLong }
    ensures dry { IsErrOf result ReadStop.Source → reader.new.ahead ≡ [] }
    ensures source { IsErrOf result ReadStop.Source → Rose (S.faults input.old) (S.faults input.new) }
    ensures later_source { S.faults input.old ≤ S.faults input.new }
{
    match read_to_divider(alloc, reader, input)? {
        Some(text) => Ok(open_session(alloc, text.as_slice())?),
        None => Ok(refuse_length(alloc)?),
    }
}

// The refusal of a definition that is too long.
fn refuse_length(alloc: Global) -> Result<Opening, NoMemory>
    ensures { IfOk result IsRefusedLength }
{
    let refusal = DefinitionRefusal::TooLong(LONGEST_DEFINITION + 1);
    let line = definition_line(alloc, refusal)?;
    Ok(Opening::Refused(line))
}

// Answers the request lines that are left of the input, each before the next one is read.
fn answer_lines<S: Source, K: Sink, D: Disk, G: Ledger>(
    alloc: Global,
    session: &mut Session,
    reader: &mut LineReader,
    input: &mut S,
    output: &mut K,
    disk: &mut D,
    steps: &mut Steps<G>,
) -> Result<(), Stop>
    ensures done { OnOk result (WhereTold (ServesAll session.old session.new) (both (rest reader.old (S.left input.old)) (K.written output.old)) (both (rest reader.new (S.left input.new)) (K.written output.new))) }
    ensures end { OnOk result (WhereTold (λ old new. new ≡ []) (rest reader.old (S.left input.old)) (rest reader.new (S.left input.new))) }
    ensures stopped { IfErr result (λ stop. stop ≢ Stop.Sink → WhereTold (Stops session.old) (both (rest reader.old (S.left input.old)) (K.written output.old)) (both (rest reader.new (S.left input.new)) (K.written output.new))) }
    ensures broken { IsErrOf result Stop.Sink → WhereTold (Breaks session.old) (both (rest reader.old (S.left input.old)) (K.written output.old)) (both (rest reader.new (S.left input.new)) (K.written output.new)) }
    ensures counts { WhereTold (λ old new. reader.new.used + length new ≡ reader.old.used + length old) (rest reader.old (S.left input.old)) (rest reader.new (S.left input.new)) }
    ensures limit { reader.new.used ≤ 2 ^ 40 }
    ensures too_long { IsErrOf result Stop.TooLong → (reader.new.used ≡ 2 ^ 40) × (reader.new.ahead ≢ []) }
    ensures dry { IsErrOf result Stop.Source → reader.new.ahead ≡ [] }
    ensures source { IsErrOf result Stop.Source → Rose (S.faults input.old) (S.faults input.new) }
    ensures later_source { S.faults input.old ≤ S.faults input.new }
    ensures sink { IsErrOf result Stop.Sink → Rose (K.faults output.old) (K.faults output.new) }
    ensures later_sink { K.faults output.old ≤ K.faults output.new }
    ensures still { disk.new ≡ disk.old }
{
    let mut line = Vec::new(alloc);
    'lines: while answer_line(session, reader, input, output, disk, &mut line, steps)? {}
    Ok(())
}

// One line: it is read, and answered unless it is empty. False at the end of the input.
fn answer_line<S: Source, K: Sink, D: Disk, G: Ledger>(
    session: &mut Session,
    reader: &mut LineReader,
    input: &mut S,
    output: &mut K,
    disk: &mut D,
    line: &mut Vec<u8>,
    steps: &mut Steps<G>,
) -> Result<bool, Stop>
    ensures more { IfOk result (λ more. IsTrue more → WhereTold (ServesLines session.old session.new) (both (rest reader.old (S.left input.old)) (K.written output.old)) (both (rest reader.new (S.left input.new)) (K.written output.new))) }
    ensures done { IfOk result (λ more. IsFalse more → WhereTold (ServesAll session.old session.new) (both (rest reader.old (S.left input.old)) (K.written output.old)) (both (rest reader.new (S.left input.new)) (K.written output.new))) }
    ensures end { IfOk result (λ more. IsFalse more → WhereTold (λ old new. new ≡ []) (rest reader.old (S.left input.old)) (rest reader.new (S.left input.new))) }
    ensures stopped { IfErr result (λ stop. stop ≢ Stop.Sink → WhereTold (Stops session.old) (both (rest reader.old (S.left input.old)) (K.written output.old)) (both (rest reader.new (S.left input.new)) (K.written output.new))) }
    ensures broken { IsErrOf result Stop.Sink → WhereTold (Breaks session.old) (both (rest reader.old (S.left input.old)) (K.written output.old)) (both (rest reader.new (S.left input.new)) (K.written output.new)) }
    ensures counts { WhereTold (λ old new. reader.new.used + length new ≡ reader.old.used + length old) (rest reader.old (S.left input.old)) (rest reader.new (S.left input.new)) }
    ensures uses { IfOk result (λ more. IsTrue more → reader.old.used < reader.new.used) }
    ensures limit { reader.new.used ≤ 2 ^ 40 }
    ensures too_long { IsErrOf result Stop.TooLong → (reader.new.used ≡ 2 ^ 40) × (reader.new.ahead ≢ []) }
    ensures dry { IsErrOf result Stop.Source → reader.new.ahead ≡ [] }
    ensures source { IsErrOf result Stop.Source → Rose (S.faults input.old) (S.faults input.new) }
    ensures later_source { S.faults input.old ≤ S.faults input.new }
    ensures sink { IsErrOf result Stop.Sink → Rose (K.faults output.old) (K.faults output.new) }
    ensures later_sink { K.faults output.old ≤ K.faults output.new }
    ensures still { disk.new ≡ disk.old }
{
    match reader.next_line(input, line, MOST)? {
        LineEnd::Nothing => Ok(false),
        LineEnd::Input => {
            write_reply(session, line.as_slice(), output, disk, steps)?;
            Ok(false)
        }
        LineEnd::Feed => {
            write_reply(
                session,
                without_return(line.as_slice()),
                output,
                disk,
                steps,
            )?;
            Ok(true)
        }
    }
}

// Answers a request line, unless it is empty.
fn write_reply<K: Sink, D: Disk, G: Ledger>(
    session: &mut Session,
    request: &[u8],
    output: &mut K,
    disk: &mut D,
    steps: &mut Steps<G>,
) -> Result<(), Failed>
    ensures replied { OnOk result (WhereTold (Replies session.old session.new request.now) (K.written output.old) (K.written output.new)) }
    ensures broken { OnErr result (WhereTold (RepliesInPart session.old request.now) (K.written output.old) (K.written output.new)) }
    ensures cause { HasCause (K.faults output.old) (K.faults output.new) result }
    ensures still { disk.new ≡ disk.old }
{
    if request.is_empty() {
        return Ok(());
    }
    if request.len() > LONGEST_REQUEST {
        return write_line(output, TOO_LONG);
    }
    let answered = session.answer(disk, request, steps);
    write_line(output, body_of(&answered))
}

// The body of an answer, which takes no memory where there was none.
fn body_of(answered: &Answered) -> &[u8]
    ensures { (h : Holding) → IsBody h answered.now.reply answered.now.body.items → result.now ≡ body h.book.columns answered.now.reply }
{
    match answered.reply {
        Reply::Refused(Refusal::NoMemory) => NO_MEMORY,
        _ => answered.body.as_slice(),
    }
}

// Writes a text as a line. It takes no memory, since what it tells of may have been done already.
fn write_line<K: Sink>(output: &mut K, text: &[u8]) -> Result<(), Failed>
    ensures ok { OnOk result (Gains (K.written output.old) (K.written output.new) (printed text.now)) }
    ensures err { OnErr result (WhereTold (GainsFront (printed text.now)) (K.written output.old) (K.written output.new)) }
    ensures cause { HasCause (K.faults output.old) (K.faults output.new) result }
{
    write_all(output, text)?;
    write_all(output, b"\n")
}
