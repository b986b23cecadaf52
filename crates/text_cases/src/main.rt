// The calls for text on the folder example, which is read from standard input: the header, single lines and runs of lines, in more room than they
// need, in just enough, in a byte less and in none; the last clause and the one behind it; horizons 64 and 65; files that are refused. After each
// call the whole lent room is shown: "?" is a byte as it was lent, "/" an LF.
#![tactic(auto)]

ghost use Rattle.std.specs.Prelude.{◌≤◌, length};

use rules::Refusal;
use showing::print_refusal;
use showing::streams::{Input, Screen};
use std::io;
use std::io::Read;
use text::calls::{clause_line, header, lines};
use text::runs::Run;

const FOLDER_LENGTH: usize = 38;

// The room that is shown, and the room for all lines at horizon 3.
const ROOM: usize = 40;

const WIDE_ROOM: usize = 480;

fn show_answer(rt: &impl Print, answer: Result<Run, Refusal>) -> io::Result<()> {
    match answer {
        Ok(run) => print!(rt; "{} lines, {} bytes: ", run.lines, run.bytes),
        Err(why) => {
            print!(rt; "refused ")?;
            print_refusal(rt, why)?;
            print!(rt; ": ")
        }
    }
}

// The lent room, on one line.
fn show_room(rt: &impl Print, out: &mut [u8]) -> io::Result<()> {
    for byte in out.iter_mut() {
        if *byte == b'\n' {
            *byte = b'/';
        }
    }
    rt.write_all(out)?;
    println!(rt; "")
}

fn show_header(rt: &impl Print, file: &[u8], horizon: usize, room: usize) -> io::Result<()>
    requires { room ≤ 40 }
{
    let mut out = [b'?'; ROOM];
    show_answer(rt, header(file, horizon, &mut out[..room]))?;
    show_room(rt, &mut out)
}

fn show_line(rt: &impl Print, file: &[u8], horizon: usize, c: usize, room: usize) -> io::Result<()>
    requires { room ≤ 40 }
{
    let mut out = [b'?'; ROOM];
    show_answer(rt, clause_line(file, horizon, c, &mut out[..room]))?;
    show_room(rt, &mut out)
}

fn show_lines(rt: &impl Print, file: &[u8], horizon: usize, c: usize, room: usize) -> io::Result<()>
    requires { room ≤ 40 }
{
    let mut out = [b'?'; ROOM];
    show_answer(rt, lines(file, horizon, c, &mut out[..room]))?;
    show_room(rt, &mut out)
}

// All lines at a horizon.
fn show_all(rt: &impl Print, file: &[u8], horizon: usize) -> io::Result<()> {
    let mut out = [b'?'; WIDE_ROOM];
    show_answer(rt, lines(file, horizon, 0, &mut out))?;
    show_room(rt, &mut out)
}

// The first so many bytes of the file.
fn show_cut(rt: &impl Print, file: &[u8], bytes: usize) -> io::Result<()>
    requires { bytes ≤ length file.now }
{
    show_header(rt, &file[..bytes], 1, ROOM)?;
    show_line(rt, &file[..bytes], 1, 0, ROOM)?;
    show_lines(rt, &file[..bytes], 1, 0, ROOM)
}

fn show_headers(rt: &impl Print, folder: &[u8]) -> io::Result<()> {
    show_header(rt, folder, 0, ROOM)?;
    show_header(rt, folder, 1, ROOM)?;
    show_header(rt, folder, 2, ROOM)?;
    show_header(rt, folder, 3, ROOM)?;
    show_header(rt, folder, 64, ROOM)?;
    show_header(rt, folder, 65, ROOM)?;
    // 12 bytes
    show_header(rt, folder, 1, 12)?;
    show_header(rt, folder, 1, 11)?;
    show_header(rt, folder, 1, 0)?;
    show_header(rt, folder, 65, 0)
}

fn show_single(rt: &impl Print, folder: &[u8]) -> io::Result<()> {
    // "-7 1 6 0" and its LF
    show_line(rt, folder, 1, 17, ROOM)?;
    show_line(rt, folder, 1, 17, 9)?;
    show_line(rt, folder, 1, 17, 8)?;
    show_line(rt, folder, 1, 17, 0)?;
    // the last clause, and the one behind it
    show_line(rt, folder, 1, 21, ROOM)?;
    show_line(rt, folder, 1, 22, ROOM)?;
    show_line(rt, folder, 1, 22, 0)?;
    show_line(rt, folder, 64, 966, ROOM)?;
    show_line(rt, folder, 64, 967, ROOM)?;
    show_line(rt, folder, 65, 966, 0)
}

fn show_runs(rt: &impl Print, folder: &[u8]) -> io::Result<()> {
    show_all(rt, folder, 0)?;
    show_all(rt, folder, 1)?;
    show_all(rt, folder, 2)?;
    show_all(rt, folder, 3)?;
    // three lines fit to the byte, and then two
    show_lines(rt, folder, 1, 0, 13)?;
    show_lines(rt, folder, 1, 0, 12)?;
    show_lines(rt, folder, 1, 0, 4)?;
    show_lines(rt, folder, 1, 0, 3)?;
    show_lines(rt, folder, 1, 0, 0)?;
    // the last two lines, and behind the last
    show_lines(rt, folder, 1, 20, ROOM)?;
    show_lines(rt, folder, 1, 21, ROOM)?;
    show_lines(rt, folder, 1, 22, ROOM)?;
    show_lines(rt, folder, 64, 966, ROOM)?;
    show_lines(rt, folder, 65, 0, ROOM)
}

fn show_refused(rt: &impl Print, folder: &[u8]) -> io::Result<()>
    requires { 38 ≤ length folder.now }
{
    show_cut(rt, folder, 0)?;
    show_cut(rt, folder, 1)?;
    show_cut(rt, folder, 2)?;
    show_cut(rt, folder, 3)?;
    show_cut(rt, folder, 37)
}

fn show_folder(rt: &impl Print, folder: &[u8]) -> io::Result<()>
    requires { 38 ≤ length folder.now }
{
    show_headers(rt, folder)?;
    show_single(rt, folder)?;
    show_runs(rt, folder)?;
    show_refused(rt, folder)
}

fn main() {
    let mut folder = [0u8; FOLDER_LENGTH];
    // a shorter file is not shown
    if Input.read_exact(&mut folder).is_err() {
        return;
    }
    // what cannot be written is left out
    let _ = show_folder(&Screen, &folder);
}
