// The next path: until when each entropy value (EV) is avoided, and which EV is taken next. Document 01, "Next path".
// `evs[e]` is the time of EV e; there are as many EVs as times are lent.
#![tactic(auto)]

ghost use Rattle.std.specs.Prelude.{◌≡◌, ◌+◌, ◌%◌, ◌^◌, ◌<◌, ◌≤◌, ◌++◌, length};
ghost use Rattle.paths.specs.Path.{time_most, Early, with_time, avoids, avoided, first_free, landed, choice};

// Every time, an EV's and the event's, is below this: they are below 2^49.
const TIME_MOST: u64 = 1 << 63;

// The EV that is taken, and the cursor after it.
#[derive(Clone, Copy)]
pub struct Choice {
    pub ev: usize,
    pub cursor: usize,
}

// What one round of the EVs from the cursor on tells: how many are passed before the first that is not avoided,
// and how many are avoided in all.
#[derive(Clone, Copy)]
struct Round {
    passed: usize,
    avoided: usize,
}

// Sets the time of an EV. An inner step: its caller proves that there is such an EV.
pub fn avoid_until(evs: &mut [u64], ev: usize, until: u64)
    requires { ev < length evs.old }
    ensures { evs.new ≡ with_time evs.old ev until }
{
    evs[ev] = until;
}

// 1 for an EV that is avoided, 0 for another. Below 2^63 the highest bit of the wrapped difference is set exactly where it is below zero:
// no comparison of 64-bit numbers, of which x86-64 has none that takes several at a time.
fn one_avoided(until: u64, time: u64) -> usize
    requires { (until < time_most) × (time < time_most) }
    ensures { result ≡ avoids time until }
{
    (std::num::wrapping_sub_u64(time, until) / TIME_MOST) as usize
}

// How many EVs are avoided.
fn count_avoided(evs: &[u64], time: u64) -> usize
    requires { Early evs.now × (time < time_most) }
    ensures { (result ≡ avoided time evs.now) × (result ≤ length evs.now) }
{
    let mut count: usize = 0;
    for &until in evs {
        count += one_avoided(until, time);
    }
    count
}

// The place of the first EV that is not avoided; the length where every one is.
fn first_free(evs: &[u64], time: u64) -> usize
    ensures { (result ≡ first_free time evs.now) × (result ≤ length evs.now) }
{
    for (i, &until) in evs.iter().enumerate() {
        if until <= time {
            return i;
        }
    }
    evs.len()
}

// x modulo n, of an x below twice n: no division.
fn wrap(x: usize, n: usize) -> usize
    requires { x < n + n }
    ensures { result ≡ x % n }
{
    if x < n {
        return x;
    }
    x - n
}

// One round, over two parts: `tail` are the EVs from the cursor on, `head` those before it. Every EV that is passed is avoided, so the
// count goes on from the first free one (request M-102): that one alone is looked at twice.
fn go_round(tail: &[u64], head: &[u64], time: u64) -> Round
    requires head_len_bound { length tail.now + length head.now < 2 ^ 60 }
    requires early { Early tail.now × Early head.now × (time < time_most) }
    ensures { (result.passed ≡ first_free time (tail.now ++ head.now))
        × (result.avoided ≡ avoided time (tail.now ++ head.now)) }
{
    let k = first_free(tail, time);
    if k < tail.len() {
        let avoided = k + count_avoided(&tail[k..], time) + count_avoided(head, time);
        return Round { passed: k, avoided };
    }
    let j = first_free(head, time);
    let avoided = k + j + count_avoided(&head[j..], time);
    Round {
        passed: k + j,
        avoided,
    }
}

// The EV that lies s steps from the cursor, and the cursor after it, of n EVs.
fn land(cursor: usize, s: usize, n: usize) -> Choice
    requires { (cursor < n) × (s < n) × (n < 2 ^ 60) }
    ensures { result ≡ landed cursor s n }
{
    let ev = wrap(cursor + s, n);
    let next = wrap(ev + 1, n);
    Choice { ev, cursor: next }
}

// The cursor's own EV, which is 0 steps away, and the cursor after it.
fn stay(cursor: usize, n: usize) -> Choice
    requires { (cursor < n) × (n < 2 ^ 60) }
    ensures { result ≡ landed cursor 0 n }
{
    let next = wrap(cursor + 1, n);
    Choice {
        ev: cursor,
        cursor: next,
    }
}

// The next path. An inner step: its caller proves that the cursor is an EV, and that no time is 2^63 or more.
pub fn choose(evs: &[u64], cursor: usize, time: u64) -> Choice
    requires cursor_in_bounds { cursor < length evs.now }
    requires early { Early evs.now × (time < time_most) }
    ensures { result ≡ choice time cursor evs.now }
{
    // A cursor that is not avoided is taken whatever the count says: more than half avoided takes it too.
    let n = evs.len();
    if evs[cursor] <= time {
        return stay(cursor, n);
    }
    let round = go_round(&evs[cursor..], &evs[0..cursor], time);
    if n < 2 * round.avoided {
        return stay(cursor, n);
    }
    land(cursor, round.passed, n)
}
