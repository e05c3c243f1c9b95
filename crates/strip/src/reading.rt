// Check, unpack and repeat, for a strip that is open: its times are listed, in arrays that are made here, once for the call.
ghost use Rattle.std.specs.Prelude.{◌≡◌, ◌≤◌, length};
ghost use Rattle.codes.specs.Lists.{filled_to};
ghost use Rattle.tree.specs.Listing.{accesses};
ghost use Rattle.strip.specs.Refusals.{outcome};
ghost use Rattle.strip.specs.Calls.{room_for, written, list_in, check_in, repeat_from};
ghost use Rattle.strip.specs.Layout.{max_pins};
ghost use Rattle.strip.specs.Read.{falls_test, gap_or, unpack_in};

use super::lists::{first_lower, first_near};
use super::open::Open;
use super::refusals::Refusal;
use super::strip::Strip;

// Test 11 of these times.
fn test_order(times: &[u32]) -> Result<(), Refusal>
    ensures { outcome result ≡ falls_test times.now }
{
    let lower = first_lower(times);
    if lower < times.len() {
        return Err(Refusal::TimesFall(lower));
    }
    Ok(())
}

// The first position whose time is less than r after the one before; refused where that is lower. Without such a position, `end`.
fn gap_or(
    times: &[u32],
    r: u32,
    end: Result<Option<usize>, Refusal>,
) -> Result<Option<usize>, Refusal>
    ensures { outcome result ≡ gap_or r times.now (outcome end) }
{
    let i = first_near(times, r);
    if i >= times.len() {
        return end;
    }
    if times[i] < times[i - 1] {
        return Err(Refusal::TimesFall(i));
    }
    Ok(Some(i))
}

// Writes the list to the front of the output, where there is room.
fn put_list(out: &mut [u32], times: &[u32]) -> Result<usize, Refusal>
    ensures result_value { outcome result ≡ room_for (length out.old) (length times.now) }
    ensures out_after { out.new ≡ written (room_for (length out.old) (length times.now)) times.now out.old }
{
    let n = times.len();
    if out.len() < n {
        return Err(Refusal::Short(n));
    }
    out[..n].copy_from_slice(times);
    Ok(n)
}

// Calls `read` with the output and with arrays for n times and n values, which are made here.
fn within<const N: usize, T, F: Fn(&mut [u32], &mut [u32], &mut [u32]) -> T>(
    out: &mut [u32],
    n: usize,
    read: F,
) -> T
    requires few { (n ≤ N) × (N ≤ max_pins) }
    requires callable { (o t v : _) → length t.now ≡ n → length v.now ≡ n → F.pre read o t v }
    ensures { (o t v p u w : _) × (o.now ≡ out.old) × (p.now ≡ out.new) × (length t.now ≡ n) × (length v.now ≡ n) × F.post read o t v result p u w }
{
    let mut times = [0u32; N];
    let mut values = [0u32; N];
    read(out, &mut times[..n], &mut values[..n])
}

// The same, in short arrays where these are enough. `most` tells the arrays, as in `Tune::pack`, and it calls itself for the same reason.
fn in_arrays<T, F: Fn(&mut [u32], &mut [u32], &mut [u32]) -> T>(
    out: &mut [u32],
    n: usize,
    most: usize,
    read: F,
) -> T
    requires few { n ≤ max_pins }
    requires callable { (o t v : _) → length t.now ≡ n → length v.now ≡ n → F.pre read o t v }
    ensures { (o t v p u w : _) × (o.now ≡ out.old) × (p.now ≡ out.new) × (length t.now ≡ n) × (length v.now ≡ n) × F.post read o t v result p u w }
{
    if n > most {
        return in_arrays(out, n, Strip::MAX_PINS, read);
    }
    if most == Strip::SHORT_PINS {
        return within::<{ Strip::SHORT_PINS }, T, F>(out, n, read);
    }
    within::<{ Strip::MAX_PINS }, T, F>(out, n, read)
}

impl Open<'_> {
    // Lists the times and gives the pin count, where nothing is refused: 9, 10 and 11 by position, then 12. The bytes are the image of the
    // times where each level is what pack writes for the values that it is decoded to.
    //
    // The two slices have the tree's length here and in the calls below. They are no struct: one that lends both would have to promise at
    // each step that they are still the same.
    fn check_list(&self, times: &mut [u32], values: &mut [u32]) -> Result<usize, Refusal>
        requires pins_value { (self.now.tree.levels.pins ≡ length times.old) × (self.now.tree.levels.pins ≡ length values.old) }
        ensures result_value { outcome result ≡ check_in self.now.tree.bytes.now self.now.tree.levels }
        ensures times_after { times.new ≡ filled_to self.now.tree.levels.pins (list_in self.now.tree.bytes.now self.now.tree.levels) }
    {
        let listing = self.tree.list(times, values);
        match listing.listed {
            Ok(()) => {
                test_order(times)?;
                if listing.decoded && self.tree.are_chosen(values) {
                    return Ok(self.tree.levels.pins);
                }
                Err(Refusal::Image)
            }
            Err(stop) => {
                test_order(&times[..stop.position])?;
                Err(Refusal::from(stop.refusal))
            }
        }
    }

    // Lists the times and gives the first position whose time is less than r after the one before.
    fn repeat_list(
        &self,
        times: &mut [u32],
        values: &mut [u32],
        r: u32,
    ) -> Result<Option<usize>, Refusal>
        requires pins_value { (self.now.tree.levels.pins ≡ length times.old) × (self.now.tree.levels.pins ≡ length values.old) }
        ensures result_value { outcome result ≡ repeat_from (accesses self.now.tree.levels self.now.tree.bytes.now) r self.now.tree.levels.pins 0 }
        ensures times_after { times.new ≡ filled_to self.now.tree.levels.pins (list_in self.now.tree.bytes.now self.now.tree.levels) }
    {
        match self.tree.list(times, values).listed {
            Ok(()) => gap_or(times, r, Ok(None)),
            Err(stop) => gap_or(&times[..stop.position], r, Err(Refusal::from(stop.refusal))),
        }
    }

    // Check: the pin count.
    pub(crate) fn check(&self) -> Result<usize, Refusal>
        ensures { outcome result ≡ check_in self.now.tree.bytes.now self.now.tree.levels }
    {
        in_arrays(
            &mut [],
            self.tree.levels.pins,
            Strip::SHORT_PINS,
            |_out, times, values| self.check_list(times, values),
        )
    }

    // Check, then 4: writes the list to the front of the output.
    fn unpack_list(
        &self,
        out: &mut [u32],
        times: &mut [u32],
        values: &mut [u32],
    ) -> Result<usize, Refusal>
        requires pins_value { (self.now.tree.levels.pins ≡ length times.old) × (self.now.tree.levels.pins ≡ length values.old) }
        ensures result_value { outcome result ≡ unpack_in self.now.tree.bytes.now (length out.old) self.now.tree.levels }
        ensures out_after { out.new ≡ written (unpack_in self.now.tree.bytes.now (length out.old) self.now.tree.levels) (list_in self.now.tree.bytes.now self.now.tree.levels) out.old }
    {
        self.check_list(times, values)?;
        put_list(out, times)
    }

    // Unpack: the pin count, with the list at the front of the output.
    pub(crate) fn unpack(&self, out: &mut [u32]) -> Result<usize, Refusal>
        ensures result_value { outcome result ≡ unpack_in self.now.tree.bytes.now (length out.old) self.now.tree.levels }
        ensures out_after { out.new ≡ written (unpack_in self.now.tree.bytes.now (length out.old) self.now.tree.levels) (list_in self.now.tree.bytes.now self.now.tree.levels) out.old }
    {
        in_arrays(
            out,
            self.tree.levels.pins,
            Strip::SHORT_PINS,
            |out, times, values| self.unpack_list(out, times, values),
        )
    }

    // Repeat: the first position whose time is less than r after the one before, or none.
    pub(crate) fn repeat(&self, r: u32) -> Result<Option<usize>, Refusal>
        ensures { outcome result ≡ repeat_from (accesses self.now.tree.levels self.now.tree.bytes.now) r self.now.tree.levels.pins 0 }
    {
        in_arrays(
            &mut [],
            self.tree.levels.pins,
            Strip::SHORT_PINS,
            |_out, times, values| self.repeat_list(times, values, r),
        )
    }
}
