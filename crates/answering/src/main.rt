// Answers a stream of cases by the proved code: reads cases from standard input, makes the call that each names on the memory that it
// lends, and writes the answer and all lent memory after the call to standard output. The streams are those of the second program, which
// holds its own answers against these. A case that is cut off, or wider than the room here, ends the run with a line on standard error,
// and the stream of answers stops before it.
#![tactic(auto)]

mod files;
mod kinds;
mod readings;
mod replies;
mod stream;
mod texts;

use kinds::Kind;
use replies::Reply;
use rules::Reading;
use showing::streams::{Input, Output};
use std::io::Read;

const FILE_BYTES: usize = 32768;

const TEXT_BYTES: usize = 262144;

const ROOM_BYTES: usize = 65536;

const LITERALS: usize = 1024;

const ROW_WORDS: usize = 16384;

const ENTRIES: usize = 128;

// The words of a row as bytes.
const RAW_BYTES: usize = 131072;

const CUT_OFF: &str = "a case is cut off, or of a kind that is not answered here";

const TOO_WIDE: &str = "a case is cut off, or wider than there is room for";

const NOT_WRITTEN: &str = "the answers cannot be written";

// Why the run stops: a complaint, or none where the stream is over.
type Stop = Option<&'static str>;

// The call that a case names, and its numbers.
#[derive(Clone, Copy)]
struct Call {
    kind: Kind,
    horizon: usize,
    asked: usize,
    reading: Reading,
}

// The numbers of a case behind its kind.
fn read_call(input: &mut impl Read, kind: Kind) -> Option<Call> {
    let horizon = stream::read_number(input)?;
    let asked = stream::read_number(input)?;
    let highest = stream::read_number(input)?;
    let phase = replies::phase_of(stream::read_number(input)?);
    Some(Call {
        kind,
        horizon,
        asked,
        reading: Reading { highest, phase },
    })
}

// The next case's numbers; the stream may end before its kind.
fn read_next(input: &mut impl Read) -> Result<Call, Stop> {
    let Some(number) = stream::read_first(input).ok_or(Some(CUT_OFF))? else {
        return Err(None);
    };
    let kind = kinds::kind_of(number).ok_or(Some(CUT_OFF))?;
    read_call(input, kind).ok_or(Some(CUT_OFF))
}

// The call that a case names, on the memory that it lends.
fn reply(
    call: Call,
    file: &[u8],
    text: &[u8],
    room: &mut [u8],
    literals: &mut [i32],
    given: &mut [u64],
    truth: &mut [u64],
    entries: &mut [u32],
) -> Reply {
    let kind = call.kind;
    let horizon = call.horizon;
    let asked = call.asked;
    let reading = call.reading;
    match kind {
        Kind::Judge => files::judge(file),
        Kind::Body => files::body(file, asked),
        Kind::Counts => files::counts(file, horizon),
        Kind::Clause => files::literals(file, horizon, asked, literals),
        Kind::HeaderText => texts::header(file, horizon, room),
        Kind::ClauseText => texts::clause(file, horizon, asked, room),
        Kind::ManyLines => texts::lines(file, horizon, asked, room),
        Kind::Start => readings::start(file, horizon, given, truth),
        Kind::Line => readings::line(reading, given, truth, text),
        Kind::FoldLines => readings::fold(reading, given, truth, text),
        Kind::Output => readings::output(reading, asked, given, truth, text),
        Kind::End => replies::judged(checker::end::finish(
            file, horizon, reading, given, truth, entries,
        )),
        Kind::WayBack => replies::judged(schedule::way_back(file, horizon, entries, given, truth)),
        Kind::Walk => replies::judged(schedule::schedule_checked(file, horizon, entries)),
    }
}

// The four numbers of an answer.
fn write_reply(output: &impl Print, reply: Reply) -> Option<()> {
    stream::write_number(output, reply.number)?;
    stream::write_number(output, reply.detail)?;
    stream::write_number(output, reply.first)?;
    stream::write_number(output, reply.second)
}

// An answer's numbers, and all lent memory after the call.
fn write_answer(
    output: &impl Print,
    reply: Reply,
    room: &[u8],
    literals: &[i32],
    given: &[u64],
    truth: &[u64],
    entries: &[u32],
    raw: &mut [u8],
) -> Option<()> {
    write_reply(output, reply)?;
    stream::write_bytes(output, room)?;
    stream::write_items(output, raw, literals)?;
    stream::write_items(output, raw, given)?;
    stream::write_items(output, raw, truth)?;
    stream::write_items(output, raw, entries)
}

// One case: reads it, makes its call, and writes the answer.
fn turn(
    input: &mut impl Read,
    output: &impl Print,
    file: &mut [u8],
    text: &mut [u8],
    room: &mut [u8],
    literals: &mut [i32],
    given: &mut [u64],
    truth: &mut [u64],
    entries: &mut [u32],
    raw: &mut [u8],
) -> Result<(), Stop> {
    let call = read_next(input)?;
    let file = stream::read_bytes(input, file).ok_or(Some(TOO_WIDE))?;
    let text = stream::read_bytes(input, text).ok_or(Some(TOO_WIDE))?;
    let room = stream::read_bytes(input, room).ok_or(Some(TOO_WIDE))?;
    let literals = stream::read_items(input, raw, literals).ok_or(Some(TOO_WIDE))?;
    let given = stream::read_items(input, raw, given).ok_or(Some(TOO_WIDE))?;
    let truth = stream::read_items(input, raw, truth).ok_or(Some(TOO_WIDE))?;
    let entries = stream::read_items(input, raw, entries).ok_or(Some(TOO_WIDE))?;
    let reply = reply(call, file, text, room, literals, given, truth, entries);
    write_answer(output, reply, room, literals, given, truth, entries, raw).ok_or(Some(
        NOT_WRITTEN,
    ))?;
    // no printed line
    stream::write_number(output, 0).ok_or(None)
}

fn main() {
    let mut input = Input;
    let mut file = [0u8; FILE_BYTES];
    let mut text = [0u8; TEXT_BYTES];
    let mut room = [0u8; ROOM_BYTES];
    let mut literals = [0i32; LITERALS];
    let mut given = [0u64; ROW_WORDS];
    let mut truth = [0u64; ROW_WORDS];
    let mut entries = [0u32; ENTRIES];
    let mut raw = [0u8; RAW_BYTES];
    // nothing says that standard input ends
    for _ in 0..u64::MAX {
        let Err(stop) = turn(
            &mut input,
            &Output::Standard,
            &mut file,
            &mut text,
            &mut room,
            &mut literals,
            &mut given,
            &mut truth,
            &mut entries,
            &mut raw,
        ) else {
            continue;
        };
        if let Some(complaint) = stop {
            // in three pieces, each written whatever became of the one before
            let _ = Output::Error.write_all(b"answering: ");
            let _ = Output::Error.write_all(complaint.as_bytes());
            let _ = Output::Error.write_all(b"\n");
        }
        return;
    }
}
