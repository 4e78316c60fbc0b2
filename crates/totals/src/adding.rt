// The cells of a frame beside the totals of a table: whether a total would pass 64 bits, and the sums.
ghost use Rattle.std.specs.Prelude.{None, ◌≡◌, ◌+◌, ◌*◌, ◌/◌, ◌≤◌, ◌<◌, length};
ghost use Rattle.std.specs.List.{sum_by};
ghost use Rattle.header.specs.Header.{number_at};
ghost use Rattle.totals.specs.Counting.{first_past as first_past_of};
ghost use Rattle.totals.specs.Framing.{sums, HighBelow};

// Totals that are looked at together.
const BLOCK: usize = 4096;

// The first cell whose total would pass 2^64-1.
pub fn first_past(frame: &[u8], totals: &[u64]) -> Option<usize>
    requires { length totals.now * 4 ≤ length frame.now }
    ensures { result ≡ first_past_of (sums totals.now frame.now) }
{
    for i in sure_to_fit(totals)..totals.len() {
        if totals[i].checked_add(rain_at(frame, i * 4)).is_none() {
            return Some(i);
        }
    }
    None
}

// How many totals, from the first on, are so far below 2^64-1 that no frame brings them past it: a block of them at a
// time, without a look at the frame. In a month's table that is every one.
fn sure_to_fit(totals: &[u64]) -> usize
    ensures { (result ≤ length totals.now) × HighBelow totals.now result 4294967295 }
{
    let mut sure = 0;
    for block in totals.chunks(BLOCK) {
        if 0xffff_ffff <= high_halves(block) {
            return sure;
        }
        sure += block.len();
    }
    sure
}

// The sum of the high halves of some totals, which is at least each of them.
fn high_halves(totals: &[u64]) -> u64
    requires { length totals.now ≤ 4096 }
    ensures { result ≡ sum_by (λ total. total / 4294967296) totals.now }
{
    totals.iter().map(|total| total / 0x1_0000_0000).sum()
}

// Adds to each total its cell's rain.
pub fn add(frame: &[u8], totals: &mut [u64])
    requires totals_in_bounds { length totals.old * 4 ≤ length frame.now }
    requires frame_value { first_past_of (sums totals.old frame.now) ≡ None }
    ensures { totals.new ≡ sums totals.old frame.now }
{
    for (i, total) in totals.iter_mut().enumerate() {
        *total += rain_at(frame, i * 4);
    }
}

// A cell's rain: the four bytes from `at` on as one number.
fn rain_at(frame: &[u8], at: usize) -> u64
    requires { at + 4 ≤ length frame.now }
    ensures { (result ≡ number_at frame.now at) × (result < 4294967296) }
{
    u64::from(u32::from_be_bytes([frame[at], frame[at + 1], frame[at + 2], frame[at + 3]]))
}
