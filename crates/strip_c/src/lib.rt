// The calls on strips for programs in other languages, on numbers and slices. include/gemcotton.h declares them.

#![tactic(auto)]

ghost use Rattle.std.specs.Prelude.{◌≡◌, length};
ghost use Rattle.tree.specs.Shape.{height, root_place, ranked};
ghost use Rattle.strip.specs.Refusals.{refusal_number, carried, outcome};
ghost use Rattle.strip.specs.Calls.{pack_of, pack_output, access_of, search_of, up_to_of, sweep_of, sweep_output, check_of, unpack_of, unpack_output, repeat_of, step_of, next_of};
ghost use Rattle.strip_c.specs.Numbers.{given as given_by, refused, of_walk, of_number, of_sweep, of_repeat, of_step, position_or};

use strip::{Found, Refusal, Strip};

// 0, what is given and the nodes opened; or the number of a refusal, what it carries and 0. The C header declares it.
#[repr(C)]
#[derive(Clone, Copy, Debug, PartialEq, Eq)]
pub struct Answer {
    pub refusal: usize,
    pub value: usize,
    pub nodes: usize,
}

fn given(value: usize, nodes: usize) -> Answer
    ensures { result ≡ given_by value nodes }
{
    Answer {
        refusal: 0,
        value,
        nodes,
    }
}

impl From<Refusal> for Answer {
    ghost from_gives = { λ r a. a ≡ refused (refusal_number r) (carried r) };

    fn from(refusal: Refusal) -> Answer {
        Answer {
            refusal: refusal.number(),
            value: refusal.carried(),
            nodes: 0,
        }
    }
}

// The answer of an access, a search or up-to.
impl From<Result<Found, Refusal>> for Answer {
    ghost from_gives = { λ r a. a ≡ of_walk (outcome r) };

    fn from(found: Result<Found, Refusal>) -> Answer {
        match found {
            Ok(f) => given(f.value, f.nodes),
            Err(r) => Answer::from(r),
        }
    }
}

// The answer of a call that opens no nodes: of pack, check or unpack.
impl From<Result<usize, Refusal>> for Answer {
    ghost from_gives = { λ r a. a ≡ of_number (outcome r) };

    fn from(counted: Result<usize, Refusal>) -> Answer {
        match counted {
            Ok(n) => given(n, 0),
            Err(r) => Answer::from(r),
        }
    }
}

#[unsafe(no_mangle)]
pub extern "C" fn gemcotton_height(n: usize) -> usize
    ensures { result ≡ height n }
{
    Strip::height(n)
}

#[unsafe(no_mangle)]
pub extern "C" fn gemcotton_root_place(n: usize) -> usize
    ensures { result ≡ root_place n }
{
    Strip::root_place(n)
}

#[unsafe(no_mangle)]
pub extern "C" fn gemcotton_rank(n: usize, node: usize) -> usize
    ensures { result ≡ position_or n (ranked n node) }
{
    Strip::rank(n, node).unwrap_or(n)
}

#[unsafe(no_mangle)]
pub extern "C" fn gemcotton_pack(out: &mut [u8], times: &[u32]) -> Answer
    ensures value { result ≡ of_number (pack_of times.now (length out.old)) }
    ensures out_after { out.new ≡ pack_output times.now out.old }
{
    Answer::from(Strip::pack(out, times))
}

#[unsafe(no_mangle)]
pub extern "C" fn gemcotton_access(s: &[u8], i: usize) -> Answer
    ensures { result ≡ of_walk (access_of s.now i) }
{
    Answer::from(Strip::access(s, i))
}

#[unsafe(no_mangle)]
pub extern "C" fn gemcotton_search(s: &[u8], target: u32) -> Answer
    ensures { result ≡ of_walk (search_of s.now target) }
{
    Answer::from(Strip::search(s, target))
}

#[unsafe(no_mangle)]
pub extern "C" fn gemcotton_up_to(s: &[u8], t: u32) -> Answer
    ensures { result ≡ of_walk (up_to_of s.now t) }
{
    Answer::from(Strip::up_to(s, t))
}

// A sweep's number is of nodes, a position may be missing: these are no `From` of a number.
#[unsafe(no_mangle)]
pub extern "C" fn gemcotton_sweep(answers: &mut [u32], s: &[u8], targets: &[u32]) -> Answer
    ensures value { result ≡ of_sweep (sweep_of s.now targets.now (length answers.old)) }
    ensures answers_after { answers.new ≡ sweep_output s.now targets.now answers.old }
{
    match Strip::sweep(answers, s, targets) {
        Ok(nodes) => given(0, nodes),
        Err(r) => Answer::from(r),
    }
}

#[unsafe(no_mangle)]
pub extern "C" fn gemcotton_check(s: &[u8]) -> Answer
    ensures { result ≡ of_number (check_of s.now) }
{
    Answer::from(Strip::check(s))
}

#[unsafe(no_mangle)]
pub extern "C" fn gemcotton_unpack(out: &mut [u32], s: &[u8]) -> Answer
    ensures value { result ≡ of_number (unpack_of s.now (length out.old)) }
    ensures out_after { out.new ≡ unpack_output s.now out.old }
{
    Answer::from(Strip::unpack(out, s))
}

#[unsafe(no_mangle)]
pub extern "C" fn gemcotton_repeat(s: &[u8], r: u32) -> Answer
    ensures { result ≡ of_repeat (repeat_of s.now r) }
{
    match Strip::repeat(s, r) {
        Ok(position) => given(position.unwrap_or(0), 0),
        Err(why) => Answer::from(why),
    }
}

#[unsafe(no_mangle)]
pub extern "C" fn gemcotton_step(next: &mut usize, s: &[u8]) -> Answer
    ensures value { result ≡ of_step (step_of s.now next.old) }
    ensures next_after { next.new ≡ next_of s.now next.old }
{
    let moved = Strip::step(s, *next);
    *next = moved.next;
    match moved.step {
        Ok(Some(f)) => given(f.value, f.nodes),
        Ok(None) => given(0, 0),
        Err(r) => Answer::from(r),
    }
}
