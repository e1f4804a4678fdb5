// Performs a call list on a writer over a flat blob, and prints one line for each call.
#![tactic(auto)]

ghost use Rattle.std.specs.Prelude.{◌≡◌, ◌==◌};
ghost use Rattle.recorder.specs.Session.{Sane};
ghost use Rattle.recorder.specs.Lines.{NoNewline};

use answer::{Answer, Failure};
use call_list::read_line;
use session::Session;
use std::alloc::Global;
use std::io::Read;
use std::{env, fs};

mod answer;
mod hex;
mod session;

// The call list: the file that the argument names, or standard input.
fn input(rt: &HostRuntime) -> anyhow::Result<Vec<u8>> {
    match env::args(rt)?.nth(1) {
        Some(path) => Ok(fs::read(rt, path.as_str())?),
        None => {
            let mut bytes = Vec::new(rt.alloc());
            rt.stdin().read_to_end(&mut bytes)?;
            Ok(bytes)
        }
    }
}

// What a line of the list answers. A line to be skipped answers nothing.
fn answer_of(heap: Global, session: &mut Session, line: &[u8]) -> Result<Option<Answer>, Failure>
    requires { Sane session.old }
    ensures { Sane session.new }
{
    let Some(call) = read_line(heap, line)? else {
        return Ok(None);
    };
    Ok(Some(session.perform(heap, &call)?))
}

// Prints what a line answers.
#[inline(always)]
fn print(rt: &HostRuntime, number: u64, answer: Result<Answer, Failure>) -> anyhow::Result<()> {
    match answer {
        Ok(answer) => println!(rt; "{answer}")?,
        Err(Failure::Refused(error)) => println!(rt; "refused {error}")?,
        Err(Failure::BadStart(error)) => println!(rt; "refused {error}")?,
        Err(Failure::Problem(problem)) => println!(rt; "line {number}: {problem}")?,
    }
    Ok(())
}

// Performs a line of the list and prints what it answers. Both are inlined into the loop over the lines, and printing is
// a function of its own: a function's locals are cleared where it begins, also where it is inlined, those of printing are
// large, and a line may print nothing.
#[inline(always)]
fn perform(rt: &HostRuntime, session: &mut Session, number: u64, line: &[u8]) -> anyhow::Result<()>
    requires sane { Sane session.old }
    requires line { NoNewline line.now }
    ensures { Sane session.new }
{
    match answer_of(rt.alloc(), session, line).transpose() {
        Some(answer) => print(rt, number, answer),
        None => Ok(()),
    }
}

// The text behind the last newline is a line too; where nothing stands there it is skipped.
fn run(rt: &HostRuntime) -> anyhow::Result<()> {
    let text = input(rt)?;
    let mut session = Session::Empty;
    // `split` cuts where its closure says. The clause says where that is, and holds the closure to it.
    let lines = text.as_slice().split(
        |byte| -> bool
            ensures { result ≡ (byte.now == 10) }
        { *byte == b'\n' },
    );
    for (i, line) in lines.enumerate() {
        perform(rt, &mut session, i as u64 + 1, line)?;
    }
    Ok(())
}

fn main(rt: HostRuntime) -> anyhow::Result<()> {
    run(&rt)
}
