// Answers many images in one run: frames on standard input, an answer each on standard output, until the input ends.
//
// A frame: u8 call (0 check), u32 span, u32 length, then that many bytes. An answer: u32 code, u32 place, u32 n (for check the kind),
// then n bytes where there are any. Little-endian. A failed read or write ends the run with its error.
#![tactic(auto)]

ghost use Rattle.std.specs.Prelude.{◌≤◌, ◌<◌};
ghost use Rattle.std.specs.Io.{ReadsAtMost};

use image::answer::Answer;
use image::check::check_long;
use ownership::vine_check;
use records::bytes::u32_at;
use records::layout::HEAD;
use std::io;
use std::io::{Read, Write};

// The one call that is answered.
const CHECK: u8 = 0;

// The length of the longest image that can be accepted.
const LARGEST: usize = 63893;

// Why a run ends before its input.
#[derive(Debug, Drop)]
enum BatchError {
    Io(io::Error),
    CutShort,
    UnknownCall,
}

impl From<io::Error> for BatchError {
    fn from(e: io::Error) -> BatchError {
        BatchError::Io(e)
    }
}

// Reads until the buffer is full or the input ends, and returns how many bytes it put at the start of the buffer.
fn read_full<R: Read>(input: &mut R, buffer: &mut [u8]) -> io::Result<usize>
    ensures { ReadsAtMost result buffer.new }
{
    let mut done = 0;
    while done < buffer.len() {
        match input.read(&mut buffer[done..])? {
            0 => break,
            got => done += got,
        }
    }
    Ok(done)
}

// Fills the buffer. (`read_exact` would go on after an interrupted read, which ends a run as any failed one does.)
fn fill<R: Read>(input: &mut R, buffer: &mut [u8]) -> Result<(), BatchError> {
    if read_full(input, buffer)? == buffer.len() {
        Ok(())
    } else {
        Err(BatchError::CutShort)
    }
}

// Reads past so many bytes.
fn skip<R: Read>(
    input: &mut R,
    count: usize,
    buffer: &mut [u8; LARGEST],
) -> Result<(), BatchError> {
    for _ in 0..count / LARGEST {
        fill(input, buffer)?;
    }
    fill(input, &mut buffer[..count % LARGEST])
}

// What a frame begins with, but for the span, which check does not ask for.
#[derive(Clone, Copy)]
struct Header {
    call: u8,
    length: usize,
}

impl Header {
    // None where the input ends before it.
    fn read<R: Read>(input: &mut R) -> Result<Option<Header>, BatchError> {
        let mut head = [0; 9];
        match read_full(input, &mut head)? {
            0 => Ok(None),
            9 => Ok(Some(Header {
                call: head[0],
                length: u32_at(&head, 5) as usize,
            })),
            _ => Err(BatchError::CutShort),
        }
    }
}

// Checks the image of so many bytes that comes next, which has room in the buffer.
fn check_whole<R: Read>(
    input: &mut R,
    length: usize,
    buffer: &mut [u8; LARGEST],
) -> Result<Answer, BatchError>
    requires { length ≤ 63893 }
{
    let image = &mut buffer[..length];
    fill(input, image)?;
    Ok(vine_check(image))
}

// An image longer than any accepted one is answered by its first bytes; the rest is read past.
fn check_front<R: Read>(
    input: &mut R,
    length: usize,
    buffer: &mut [u8; LARGEST],
) -> Result<Answer, BatchError>
    requires { 63893 < length }
{
    let mut front = [0; HEAD];
    fill(input, &mut front)?;
    skip(input, length - HEAD, buffer)?;
    Ok(check_long(&front))
}

// Checks the image of so many bytes that comes next.
fn check_next<R: Read>(
    input: &mut R,
    length: usize,
    buffer: &mut [u8; LARGEST],
) -> Result<Answer, BatchError> {
    if length <= LARGEST {
        check_whole(input, length, buffer)
    } else {
        check_front(input, length, buffer)
    }
}

// An answer is flushed at once, for a caller that waits for it before its next frame.
fn write_answer<W: Write>(output: &mut W, answer: Answer) -> io::Result<()> {
    let numbers = [answer.code, answer.place, answer.kind].map(u32::to_le_bytes);
    output.write_all(numbers.as_flattened())?;
    output.flush()
}

fn answer_all<R: Read, W: Write>(input: &mut R, output: &mut W) -> Result<(), BatchError> {
    let mut buffer = [0; LARGEST];
    // a proved loop has to end; no run has so many frames
    for _ in 0..u64::MAX {
        let Some(header) = Header::read(input)? else {
            break;
        };
        if header.call != CHECK {
            return Err(BatchError::UnknownCall);
        }
        let answer = check_next(input, header.length, &mut buffer)?;
        write_answer(output, answer)?;
    }
    Ok(())
}

// A frame that cannot be answered ends the run with a line that says why, and is no failure of the run's. The line is one write, so that no
// other program's stands within it.
fn run<R: Read, W: Write, E: Write>(
    input: &mut R,
    output: &mut W,
    errors: &mut E,
) -> io::Result<()> {
    match answer_all(input, output) {
        Ok(()) => Ok(()),
        Err(BatchError::Io(e)) => Err(e),
        Err(BatchError::CutShort) => errors.write_all(b"batch: a frame is cut short\n"),
        Err(BatchError::UnknownCall) => errors.write_all(b"batch: an unknown call\n"),
    }
}

fn main(rt: HostRuntime) -> io::Result<()> {
    run(&mut rt.stdin(), &mut rt.stdout(), &mut rt.stderr())
}
