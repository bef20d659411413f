// A program of lines: each line of standard input answered on standard output, behind the program's header.
// Reads, feeds and writes; a failed read or write ends the run, with what was answered so far written out and a message on standard error.
#![tactic(auto)]

ghost use Rattle.std.specs.Prelude.{◌≡◌, ◌≤◌, min, length, take, IfOk, OnErr};
ghost use Rattle.rules.specs.TheWord.{at_front};
ghost use Rattle.stream.specs.Feeding.{feeding, room_for, fed_of};

use lines::Program;
use std::io;
use std::io::{ErrorKind, Read};
use std::process::ExitCode;
use stream::{Begun, Fed};

// A block, and an output with room for all its answers: twelve bytes for each of its bytes, and an answer to the line that had begun before it.
const BLOCK: usize = 16384;

const OUTPUT: usize = 512 + 12 * BLOCK;

// By program, as the answers are.
fn complain(rt: &HostRuntime, program: Program, failed: &[u8]) {
    let name = match program {
        Program::Drill | Program::DrillWithKeys => b"drill: cannot ",
        Program::Spell => b"spell: cannot ",
    };
    let _ = rt.stderr().write_all(name);
    let _ = rt.stderr().write_all(failed);
}

// Who reads the answers may stop: that is no fault, and nothing is said of it.
fn written(rt: &HostRuntime, program: Program, text: &[u8]) -> io::Result<()> {
    let all = rt.stdout().write_all(text);
    if let Err(e) = all
        && e.kind() != ErrorKind::BrokenPipe
    {
        complain(rt, program, b"write\n");
    }
    all
}

// A block fed whole: an output as long as this has room for all its answers, so nothing of it is left.
fn feed(state: Begun, block: &[u8], out: &mut [u8]) -> Fed
    requires { room_for (length block.now) ≤ length out.old }
    ensures { (result ≡ fed_of 0 (feeding state block.now (length out.old))) × (out.new ≡ at_front (feeding state block.now (length out.old)).text out.old) × (result.taken ≡ length block.now) }
{
    stream::feed(state, block, 0, out)
}

// The answers to a block, and the state after all of it.
fn answer(rt: &HostRuntime, state: &mut Begun, block: &[u8], out: &mut [u8]) -> io::Result<()>
    requires { room_for (length block.now) ≤ length out.old }
    ensures { state.new ≡ (feeding state.old block.now (length out.old)).state }
{
    let program = state.program;
    let fed = feed(*state, block, out);
    *state = fed.state;
    written(rt, program, &out[..fed.written])
}

// The answers to what a read brought, and the state after all of it; whether the input goes on.
fn pass(
    rt: &HostRuntime,
    state: &mut Begun,
    got: io::Result<usize>,
    block: &[u8],
    out: &mut [u8],
) -> io::Result<bool>
    requires { room_for (length block.now) ≤ length out.old }
    ensures read { IfOk got (λ n. state.new ≡ (feeding state.old (take (min n (length block.now)) block.now) (length out.old)).state) }
    ensures failed { OnErr got (state.new ≡ state.old) }
{
    match got {
        Ok(0) => Ok(false),
        Ok(n) => {
            answer(rt, state, &block[..n.min(block.len())], out)?;
            Ok(true)
        }
        Err(e) => {
            complain(rt, state.program, b"read\n");
            Err(e)
        }
    }
}

// A last line without a newline.
fn end(rt: &HostRuntime, state: Begun, out: &mut [u8]) -> io::Result<()> {
    let program = state.program;
    let Ok(n) = stream::finish(state, out) else {
        return Ok(());
    };
    written(rt, program, &out[..n])
}

// Nothing says that the input ends, so the loop counts its turns, to a number that no run uses up.
fn passes(rt: &HostRuntime, program: Program, block: &mut [u8], out: &mut [u8]) -> io::Result<()>
    requires { room_for (length block.old) ≤ length out.old }
{
    let mut state = Begun::new(program);
    for _ in 0..u64::MAX {
        let got = rt.stdin().read(block);
        if !pass(rt, &mut state, got, block, out)? {
            return end(rt, state, out);
        }
    }
    Ok(())
}

// The header, and the answers to all of the input.
fn answer_all(rt: &HostRuntime, program: Program) -> io::Result<()> {
    let mut block = [0; BLOCK];
    let mut out = [0; OUTPUT];
    let Ok(n) = stream::header(program, &mut out) else {
        return Ok(());
    };
    written(rt, program, &out[..n])?;
    passes(rt, program, &mut block, &mut out)
}

// The whole run of a program, and its exit status. No contract can say what is read and written.
pub fn run(rt: &HostRuntime, program: Program) -> ExitCode {
    match answer_all(rt, program) {
        Ok(()) => ExitCode::SUCCESS,
        Err(e) => ending::status(e),
    }
}
