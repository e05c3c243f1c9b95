// The text that is printed, put into a buffer piece by piece. The buffer is lent with the place: a struct that held it would have to promise at
// each step that it is still the same.
ghost use Rattle.std.specs.Prelude.{◌≡◌, ◌+◌, ◌<◌, ◌≤◌, length, get_or};
ghost use Rattle.codes.specs.Lists.{replaced};
ghost use Rattle.tree.specs.Outcomes.{gives};
ghost use Rattle.strip.specs.Calls.{check_of, plain_list};
ghost use Rattle.strip.specs.Demands.{Accepted};
ghost use Rattle.pinlist.specs.Texts.{numeral, header, line, lines_from, most_in_line, refusal_line};

use strip::Strip;

// So many lines at the front of the text, and where they end.
#[derive(Clone, Copy)]
pub(crate) struct Piece {
    pub(crate) lines: usize,
    pub(crate) end: usize,
}

// Puts bytes into the text from byte `at` on. Answers where they end.
fn put(text: &mut [u8], at: usize, bytes: &[u8]) -> usize
    requires { at + length bytes.now ≤ length text.old }
    ensures text_after { text.new ≡ replaced text.old at bytes.now }
    ensures value { result ≡ at + length bytes.now }
{
    let end = at + bytes.len();
    text[at..end].copy_from_slice(bytes);
    end
}

// Puts a number in decimal, then the byte `after`.
fn put_number(text: &mut [u8], at: usize, x: usize, after: u8) -> usize
    requires { at + length (numeral x after) ≤ length text.old }
    ensures text_after { text.new ≡ replaced text.old at (numeral x after) }
    ensures value { result ≡ at + length (numeral x after) }
{
    let mut digits = [0u8; 20];
    let k = io::decimal(x as u64, &mut digits);
    let end = put(text, at, &digits[..k]);
    text[end] = after;
    end + 1
}

// Puts a line of two numbers.
fn put_line(text: &mut [u8], at: usize, x: usize, y: usize) -> usize
    requires { at + length (line x y) ≤ length text.old }
    ensures text_after { text.new ≡ replaced text.old at (line x y) }
    ensures value { result ≡ at + length (line x y) }
{
    let next = put_number(text, at, x, b' ');
    put_number(text, next, y, b'\n')
}

// Puts the header of n pins to the front.
pub(crate) fn put_header(text: &mut [u8], n: usize) -> usize
    requires { length (header n) ≤ length text.old }
    ensures text_after { text.new ≡ replaced text.old 0 (header n) }
    ensures value { result ≡ length (header n) }
{
    let at = put(text, 0, b"pins ");
    put_number(text, at, n, b'\n')
}

// Puts the line of a refusal to the front.
pub(crate) fn put_refusal(text: &mut [u8], number: usize, carried: usize) -> usize
    requires { length (refusal_line number carried) ≤ length text.old }
    ensures text_after { text.new ≡ replaced text.old 0 (refusal_line number carried) }
    ensures value { result ≡ length (refusal_line number carried) }
{
    let at = put(text, 0, b"refused ");
    put_line(text, at, number, carried)
}

// The time at position i of an accepted strip. By demand 2 no access to it is refused.
fn time_at(s: &[u8], i: usize) -> usize
    requires { Accepted s.now × (i < length (plain_list s.now)) }
    ensures { result ≡ get_or (plain_list s.now) i 0 }
{
    Strip::access(s, i).unwrap().value
}

// Puts the lines from that of position `first` on to the front, one at least, until there are no more or there may be no room for another.
pub(crate) fn put_times(text: &mut [u8], s: &[u8], first: usize, n: usize) -> Piece
    requires { (check_of s.now ≡ gives n) × (first < n) × (most_in_line ≤ length text.old) }
    ensures text_after { text.new ≡ replaced text.old 0 (lines_from (plain_list s.now) first result.lines) }
    ensures end_value { result.end ≡ length (lines_from (plain_list s.now) first result.lines) }
    ensures le_lines { (1 ≤ result.lines) × (first + result.lines ≤ n) }
{
    let mut end: usize = 0;
    for k in 0..n - first {
        if end + 42 > text.len() {
            return Piece { lines: k, end };
        }
        end = put_line(text, end, first + k, time_at(s, first + k));
    }
    Piece {
        lines: n - first,
        end,
    }
}
