// Reads a strip from standard input, checks it, and lists its times by access.

#![tactic(auto)]

mod lines; // the text, in a buffer

ghost use Rattle.std.specs.Prelude.{◌≡◌, ◌++◌, ◌+◌, ◌≤◌, length, take};
ghost use Rattle.io.specs.Counts.{IsPrefixLen};
ghost use Rattle.tree.specs.Outcomes.{gives, refuses};
ghost use Rattle.strip.specs.Calls.{check_of};
ghost use Rattle.pinlist.specs.Texts.{most_bytes, printed};

use lines::{put_header, put_refusal, put_times};
use std::io::{Read, Write, writer};
use strip::Strip;

// Writes the piece of what is printed for the input s that begins at byte `done`, and answers where it ends. Nothing else writes, and each call
// goes on from the answer of the one before, 0 at first, to the length that `print` answers. The input serves the contract alone.
fn write_next(rt: &HostRuntime, s: &[u8], done: usize, piece: &[u8]) -> usize
    requires { take done (printed s.now) ++ piece.now ≡ take (done + length piece.now) (printed s.now) }
    ensures { result ≡ done + length piece.now }
{
    let _ = writer(rt).write_all(piece);
    done + piece.len()
}

// Prints the listing of a strip of n pins, in large pieces.
fn print_list(rt: &HostRuntime, s: &[u8], n: usize) -> usize
    requires { (length s.now ≤ most_bytes) × (check_of s.now ≡ gives n) }
    ensures { result ≡ length (printed s.now) }
{
    let mut space = io::large_buffer();
    let text: &mut [u8] = &mut space;
    let end = put_header(text, n);
    let mut done = write_next(rt, s, 0, &text[..end]);
    // Each piece says how many lines it has.
    let mut i: usize = 0;
    while i < n {
        let piece = put_times(text, s, i, n);
        let end = piece.end;
        done = write_next(rt, s, done, &text[..end]);
        i += piece.lines;
    }
    done
}

// Prints the line of a refused check, which has 50 bytes at most.
fn print_refusal(rt: &HostRuntime, s: &[u8], number: usize, carried: usize) -> usize
    requires { (length s.now ≤ most_bytes) × (check_of s.now ≡ refuses number carried) }
    ensures { result ≡ length (printed s.now) }
{
    let mut text = [0u8; 50];
    let end = put_refusal(&mut text, number, carried);
    write_next(rt, s, 0, &text[..end])
}

// Prints all of it, and answers how many bytes that is.
fn print(rt: &HostRuntime, s: &[u8]) -> usize
    ensures { result ≡ length (printed s.now) }
{
    if s.len() > 65536 {
        return write_next(rt, s, 0, b"too long\n");
    }
    match Strip::check(s) {
        Ok(n) => print_list(rt, s, n),
        Err(r) => print_refusal(rt, s, r.number(), r.carried()),
    }
}

// Reads until the buffer is full, the input ends or a read fails, and answers how many bytes it put at the front.
fn read_full(rt: &HostRuntime, bytes: &mut [u8]) -> usize
    ensures { IsPrefixLen result bytes.new }
{
    let mut input = rt.stdin();
    let mut done: usize = 0;
    while done < bytes.len() {
        match input.read(&mut bytes[done..]) {
            Ok(0) | Err(_) => break,
            Ok(n) => done += n,
        }
    }
    done
}

// A strip of at most 65,536 bytes is read. One byte more tells that the input is longer (`ReadsEnough` in specs/Promises).
fn main(rt: HostRuntime) {
    let mut bytes = [0u8; 65537];
    let n = read_full(&rt, &mut bytes);
    print(&rt, &bytes[..n]);
}
