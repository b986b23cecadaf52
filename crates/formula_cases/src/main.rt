// The folder example's formula, its counts and all its clauses, at horizons 0 to 3; the clause behind the last; horizons 64 and 65; lent
// memory that is too short; files that are refused. After each call all lent words are shown: "?" is one as it was lent, "beyond" a
// number that is not shown.
#![tactic(auto)]

ghost use Rattle.std.specs.Prelude.{◌≤◌, length};

use rules::Refusal;
use showing::streams::Screen;
use std::io;

const FOLDER: [u8; 38] = [
    0x10, 0x00, 0x02, 0x00, 0x12, 0x00, 0x02, 0x00, 0x14, 0x00, 0x02, 0x00, 0x16, 0x00, 0x10, 0x00,
    0x02, 0x02, 0x00, 0x00, 0x01, 0x01, 0x01, 0x01, 0x00, 0x00, 0x00, 0x01, 0x02, 0x02, 0x00, 0x01,
    0x01, 0x00, 0x00, 0x00, 0x01, 0x01,
];

const ROOM: usize = 6;

const AS_LENT: i32 = 99;

// The highest number that is shown, and minus it the lowest.
const HIGHEST: i32 = 22;

fn print_literal(rt: &impl Print, literal: i32) -> io::Result<()> {
    if literal == AS_LENT {
        return print!(rt; " ?");
    }
    if literal < -HIGHEST || HIGHEST < literal {
        return print!(rt; " beyond");
    }
    if literal < 0 {
        return print!(rt; " -{}", -literal);
    }
    print!(rt; " {literal}")
}

fn print_refusal(rt: &impl Print, why: Refusal) -> io::Result<()> {
    print!(rt; "refused {}", refusals::number_of(why))
}

fn print_words(rt: &impl Print, words: &[i32]) -> io::Result<()> {
    for word in words {
        print_literal(rt, *word)?;
    }
    println!(rt; "")
}

fn print_answer(rt: &impl Print, answer: Result<usize, Refusal>) -> io::Result<()> {
    match answer {
        Ok(count) => print!(rt; "{count} literals:"),
        Err(why) => {
            print_refusal(rt, why)?;
            print!(rt; ":")
        }
    }
}

// Clause c, with so many words lent.
fn print_clause(
    rt: &impl Print,
    file: &[u8],
    horizon: usize,
    c: usize,
    room: usize,
) -> io::Result<()>
    requires { room ≤ 6 }
{
    let mut out = [AS_LENT; ROOM];
    print_answer(
        rt,
        formula::calls::literals(file, horizon, c, &mut out[..room]),
    )?;
    print_words(rt, &out)
}

// N and C.
fn print_counts(rt: &impl Print, file: &[u8], horizon: usize) -> io::Result<()> {
    match formula::calls::counts(file, horizon) {
        Ok(counts) => {
            print!(rt;
                "{} variables, {} clauses\n",
                counts.variables, counts.clauses
            )
        }
        Err(why) => {
            print_refusal(rt, why)?;
            println!(rt; "")
        }
    }
}

// The counts and so many clauses.
fn print_formula(rt: &impl Print, file: &[u8], horizon: usize, clauses: usize) -> io::Result<()> {
    print_counts(rt, file, horizon)?;
    for c in 0..clauses {
        print_clause(rt, file, horizon, c, ROOM)?;
    }
    Ok(())
}

fn run(rt: &impl Print, folder: &[u8]) -> io::Result<()>
    requires { 37 ≤ length folder.now }
{
    // one clause more than there are
    print_formula(rt, folder, 0, 8)?;
    print_formula(rt, folder, 1, 23)?;
    print_formula(rt, folder, 2, 38)?;
    print_formula(rt, folder, 3, 53)?;
    // the last clause and the one behind it
    print_counts(rt, folder, 64)?;
    print_clause(rt, folder, 64, 966, ROOM)?;
    print_clause(rt, folder, 64, 967, ROOM)?;
    print_counts(rt, folder, 65)?;
    print_clause(rt, folder, 65, 0, ROOM)?;
    // a clause of three literals, and less and less room; the number comes before the room
    print_clause(rt, folder, 1, 17, 3)?;
    print_clause(rt, folder, 1, 17, 2)?;
    print_clause(rt, folder, 1, 17, 0)?;
    print_clause(rt, folder, 1, 22, 0)?;
    // a file that is refused comes before all
    print_counts(rt, b"", 65)?;
    print_clause(rt, b"", 65, 99, 0)?;
    print_counts(rt, &folder[..37], 1)?;
    print_clause(rt, &folder[..37], 1, 99, 0)
}

fn main() {
    // what cannot be written is left out
    let _ = run(&Screen, &FOLDER);
}
