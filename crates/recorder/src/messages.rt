// What the recorder says on standard error: a line that is none, and a drill that the writer refuses, with its line and key.
use crate::Fault;
use rules::Refusal;

// One line, as in the player: nothing more is the same there.
pub(crate) fn say(rt: &HostRuntime, text: &[u8]) {
    let _ = rt.stderr().write_all(text);
}

fn say_number(rt: &HostRuntime, n: u64) {
    let _ = rt.stderr().print(n);
}

// A line that is none, and why.
pub(crate) fn say_fault(rt: &HostRuntime, line: u64, fault: Fault) {
    say(rt, b"record: line ");
    say_number(rt, line);
    match fault {
        Fault::NotAMode => say(
            rt,
            b": the first line is T or V, for Telex or VNI, and nothing else\n",
        ),
        Fault::NotATime => say(
            rt,
            b": a line is milliseconds, or milliseconds, a space and keys\n",
        ),
        Fault::NoKeys => say(
            rt,
            b": no key stands behind the space; milliseconds alone, without it, are the space\n",
        ),
        Fault::TooMany => say(rt, b": more than 16384 keys, spaces among them\n"),
    }
}

// What the writer refuses, with the place of the key among all keys, from 0, and its line.
pub(crate) fn say_refused(rt: &HostRuntime, r: Refusal, lines: &[u64]) {
    let number = r.number;
    let place = r.value;
    say(rt, b"record: ! ");
    say_number(rt, number as u64);
    say(rt, b" ");
    say_number(rt, place as u64);
    let Some(line) = lines.get(place) else {
        return say(rt, b"\n");
    };
    say(rt, b": line ");
    say_number(rt, *line);
    say(rt, b", key ");
    say_number(rt, place as u64);
    match number {
        2 => say(rt, b" counted from 0: more than 32 keys in a word\n"),
        3 => say(rt, b" counted from 0: it is not allowed in this mode\n"),
        11 => say(
            rt,
            b" counted from 0: more than 4294967295 milliseconds so far\n",
        ),
        _ => say(rt, b" counted from 0\n"),
    }
}
