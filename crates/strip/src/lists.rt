// Lists of times. The length says that there is no such position, as `first_lower` of the specs has it, on which the refusals of pack, check and
// sweep rest. Neighbours are read by index: pairs of `windows(2)` would be no plainer.
ghost use Rattle.std.specs.Prelude.{◌≡◌, true, ◌+◌, ltb, length};
ghost use Rattle.strip.specs.Lists.{first_lower};
ghost use Rattle.strip.specs.Read.{first_near};

// Whether a time is before the one before it plus r.
fn is_near(before: u32, time: u32, r: u32) -> bool
    ensures { result ≡ ltb time (before + r) }
{
    time < before || time - before < r
}

// Whether no time is before the one before it plus r. All are looked at, so that the compiler takes several at once.
fn none_near(times: &[u32], r: u32) -> bool
    ensures { result ≡ true → first_near r times.now ≡ length times.now }
{
    let mut any = false;
    for i in 1..times.len() {
        any |= is_near(times[i - 1], times[i], r);
    }
    !any
}

// The first position with a time before the one before it plus r, which is looked for.
fn near_from_start(times: &[u32], r: u32) -> usize
    ensures { result ≡ first_near r times.now }
{
    for i in 1..times.len() {
        if is_near(times[i - 1], times[i], r) {
            return i;
        }
    }
    times.len()
}

// The first position with a time before the one before it plus r, or the length.
fn near_or_end(times: &[u32], r: u32) -> usize
    ensures { result ≡ first_near r times.now }
{
    if none_near(times, r) {
        return times.len();
    }
    near_from_start(times, r)
}

// The first position with a lower time than the one before, or the length.
pub(crate) fn first_lower(times: &[u32]) -> usize
    ensures { result ≡ first_lower times.now }
{
    near_or_end(times, 0)
}

// The first position with a time before the one before it plus r, or the length. For r = 0 the compiler has shorter code.
pub(crate) fn first_near(times: &[u32], r: u32) -> usize
    ensures { result ≡ first_near r times.now }
{
    if r == 0 {
        return first_lower(times);
    }
    near_or_end(times, r)
}
