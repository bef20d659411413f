// The cards: each drill line of its input stepped key by key, and every column of the word written: shown text, commit, verdict, tone, place,
// decision, the mark, the number of letters, and how many keys acted, undid and were appended. Of a refused line, the refusal.
#![tactic(auto)]

ghost use Rattle.std.specs.Prelude.{◌≤◌, length};

use rules::{Decision, Word};
use std::io;
use std::io::Read;
use std::process::ExitCode;

fn put(rt: &HostRuntime, text: &[u8]) -> io::Result<()> {
    rt.stdout().write_all(text)
}

// A space and a number in decimal.
fn put_number(rt: &HostRuntime, n: usize) -> io::Result<()> {
    put(rt, b" ")?;
    rt.stdout().print(n as u64)
}

// A text, or a hyphen where it is empty.
fn put_text(rt: &HostRuntime, text: &[u8]) -> io::Result<()> {
    put(rt, if text.is_empty() { b"-" } else { text })
}

fn put_refused(rt: &HostRuntime, number: u8, value: usize) -> io::Result<()> {
    put(rt, b"!")?;
    put_number(rt, number as usize)?;
    put_number(rt, value)
}

// The shown text, and what commit hands back for it.
fn put_texts(rt: &HostRuntime, mode: u8, keys: &[u8], w: Word) -> io::Result<()> {
    let mut shown = [0; Word::TEXT];
    let Ok(n) = show::show(w, &mut shown) else {
        return put(rt, b"!");
    };
    let text = &shown[..n];
    put_text(rt, text)?;
    put(rt, b" ")?;
    put_text(rt, commit::commit(mode, keys, text))
}

fn put_verdict(rt: &HostRuntime, w: Word) -> io::Result<()> {
    let Ok(verdict) = word::verdict(w) else {
        return put(rt, b"!");
    };
    put_number(rt, verdict as usize)
}

fn put_place(rt: &HostRuntime, w: Word) -> io::Result<()> {
    match word::place(w) {
        Ok(Some(n)) => put_number(rt, n),
        Ok(None) => put(rt, b" -"),
        Err(_) => put(rt, b"!"),
    }
}

fn put_decision(rt: &HostRuntime, w: Word) -> io::Result<()> {
    let Ok(decision) = word::decision(w) else {
        return put(rt, b"!");
    };
    let letter = match decision {
        Decision::Keep => b" K",
        Decision::Restore => b" R",
    };
    put(rt, letter)
}

fn put_mark(rt: &HostRuntime, w: Word) -> io::Result<()> {
    put(rt, if w.closed { b" closed" } else { b" open" })
}

// No word that was typed is refused; if one were, a `!` in its line would say so.
fn put_word(rt: &HostRuntime, mode: u8, keys: &[u8], w: Word) -> io::Result<()> {
    put_texts(rt, mode, keys, w)?;
    put_verdict(rt, w)?;
    put_number(rt, w.tone as usize)?;
    put_place(rt, w)?;
    put_decision(rt, w)?;
    put_mark(rt, w)?;
    put_number(rt, w.count as usize)?;
    put_number(rt, w.acted as usize)?;
    put_number(rt, w.undone as usize)?;
    put_number(rt, w.appended as usize)
}

// The keys one after the other, from a new word.
fn stepped(mode: u8, keys: &[u8]) -> Word {
    let mut w = word::start(mode).word;
    for &key in keys {
        w = step::step(w, key).word;
    }
    w
}

fn answer(rt: &HostRuntime, mode: u8, keys: &[u8]) -> io::Result<()> {
    if let Err(r) = word::type_all(mode, keys).answer {
        return put_refused(rt, r.number, r.value);
    }
    put_word(rt, mode, keys, stepped(mode, keys))
}

// A line is T or V, a space, keys.
fn answer_line(rt: &HostRuntime, line: &[u8]) -> io::Result<()> {
    match line {
        [b'T', b' ', keys @ ..] => answer(rt, Word::TELEX, keys),
        [b'V', b' ', keys @ ..] => answer(rt, Word::VNI, keys),
        _ => put_refused(rt, 1, 0),
    }
}

fn answer_lines(rt: &HostRuntime, text: &[u8]) -> io::Result<()> {
    for line in text.split_inclusive(|b| *b == b'\n') {
        answer_line(rt, line.strip_suffix(b"\n").unwrap_or(line))?;
        put(rt, b"\n")?;
    }
    Ok(())
}

// Reads until the buffer is full, the input ends or a read fails, and returns how many bytes it put at the start of the buffer.
// The library's `read_to_end` wants a `Vec`, and its `read_exact` does not say how many bytes there were.
fn read_full(rt: &HostRuntime, buffer: &mut [u8]) -> usize
    ensures { result ≤ length buffer.new }
{
    let mut done = 0;
    while let Ok(n @ 1..) = rt.stdin().read(&mut buffer[done..]) {
        done += n;
    }
    done
}

// The input fills one buffer at most.
fn main(rt: HostRuntime) -> ExitCode {
    let mut buffer = [0; 65536];
    let n = read_full(&rt, &mut buffer);
    match answer_lines(&rt, &buffer[..n]) {
        Ok(()) => ExitCode::SUCCESS,
        Err(e) => ending::status(e),
    }
}
