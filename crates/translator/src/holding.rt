// The bytes of a line: the first are held, an LF ends it.
ghost use Rattle.std.specs.Prelude.{◌≡◌, ◌+◌, ◌≤◌, length};
ghost use Rattle.translator.specs.Intake.{head_room, HeldUpTo, block, half_block, quarter_block, no_lf, block_passes, PassedUpTo};

use crate::room::HEAD_ROOM;

// How many bytes of a long line are looked at together.
const BLOCK: usize = 16;

const HALF_BLOCK: usize = 8;

const QUARTER_BLOCK: usize = 4;

// How far the bytes of a line go, and how many are held then.
#[derive(Clone, Copy)]
pub(crate) struct Stop {
    pub at: usize,
    pub held: usize,
}

// Whether there is no LF in a quarter of a block: each byte is looked at whatever the others are, so that a processor can compare a whole block at once.
#[tactic(auto, unfolding(crate::specs::Intake::no_lf))]
fn no_lf_in_quarter(bytes: &[u8], at: usize) -> bool
    requires { at + quarter_block ≤ length bytes.now }
    ensures { result ≡ no_lf bytes.now at quarter_block }
{
    let first = bytes[at] != b'\n';
    let second = bytes[at + 1] != b'\n';
    let third = bytes[at + 2] != b'\n';
    let fourth = bytes[at + 3] != b'\n';
    first & second & third & fourth
}

fn no_lf_in_half(bytes: &[u8], at: usize) -> bool
    requires { at + half_block ≤ length bytes.now }
    ensures { result ≡ no_lf bytes.now at half_block }
{
    let first = no_lf_in_quarter(bytes, at);
    let second = no_lf_in_quarter(bytes, at + QUARTER_BLOCK);
    first & second
}

fn no_lf_in_block(bytes: &[u8], at: usize) -> bool
    requires { at + block ≤ length bytes.now }
    ensures { result ≡ no_lf bytes.now at block }
{
    let first = no_lf_in_half(bytes, at);
    let second = no_lf_in_half(bytes, at + HALF_BLOCK);
    first & second
}

// Whether a whole block of the line goes on at a place.
#[tactic(auto, unfolding(crate::specs::Intake::block_passes))]
fn block_passes(bytes: &[u8], at: usize) -> bool
    requires { at ≤ length bytes.now }
    ensures { result ≡ block_passes bytes.now at }
{
    BLOCK <= bytes.len() - at && no_lf_in_block(bytes, at)
}

// Where the line that goes on at a place ends, byte by byte.
fn near_end(bytes: &[u8], at: usize) -> usize
    requires { at ≤ length bytes.now }
    ensures { PassedUpTo bytes.now at result }
{
    let rest = &bytes[at..];
    at + rest.iter().position(|&b| b == b'\n').unwrap_or(rest.len())
}

// Where the line that goes on at a place ends: at the next LF, or with the bytes.
fn line_end(bytes: &[u8], at: usize) -> usize
    requires { at ≤ length bytes.now }
    ensures { PassedUpTo bytes.now at result }
{
    let mut end = at;
    // A `while`, as the position jumps by a whole block; the bytes behind the last of them are looked at one by one.
    while block_passes(bytes, end) {
        end += BLOCK;
    }
    near_end(bytes, end)
}

// The bytes from a place on, up to an LF or the end; once the first are held, an LF is all that is looked for.
pub(crate) fn hold(line: &mut [u8], held: usize, bytes: &[u8], at: usize) -> Stop
    requires { (held ≤ head_room) × (head_room ≤ length line.old) × (at ≤ length bytes.now) }
    ensures { HeldUpTo bytes.now at held line.old result.at result.held line.new }
{
    let count = (bytes.len() - at).min(HEAD_ROOM - held);
    for i in 0..count {
        let b = bytes[at + i];
        if b == b'\n' {
            return Stop {
                at: at + i,
                held: held + i,
            };
        }
        line[held + i] = b;
    }
    let end = at + count;
    if held + count < HEAD_ROOM {
        return Stop {
            at: end,
            held: held + count,
        };
    }
    Stop {
        at: line_end(bytes, end),
        held: HEAD_ROOM,
    }
}
