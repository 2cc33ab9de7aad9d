// Where one of two bytes stands in a slice, or one alone: then both are it. They are parameters of the code, so that each search is built for its own.
ghost use Rattle.std.specs.Prelude.{◌≤◌, ◌≡◌, true, length};
ghost use Rattle.comlynx.specs.Inside.{Clear, Passed, EitherAt, FirstAt};

// How many bytes are looked at together.
const RUN: usize = 16;

// Whether some bytes are neither A nor B. Every one of them is looked at: where their number is a constant, all are at once.
fn clear<const A: u8, const B: u8>(run: &[u8]) -> bool
    ensures { result ≡ true → Clear A B run.now 0 (length run.now) }
{
    let mut good = true;
    for x in run {
        good = good & (*x != A) & (*x != B);
    }
    good
}

// Passes by runs over bytes that are neither A nor B. It goes on by RUN and stops early: chunks would need the same index beside them.
pub(crate) fn past_runs<const A: u8, const B: u8>(s: &[u8], from: usize) -> usize
    requires { from ≤ length s.now }
    ensures { Passed A B s.now from result }
{
    let mut i = from;
    while RUN <= s.len() - i {
        if !clear::<A, B>(&s[i..i + RUN]) {
            break;
        }
        i += RUN;
    }
    i
}

// Half a run, which is tried before bytes are looked at one by one.
const HALF: usize = 8;

// Passes over half a run where there are so many bytes and none of them is A or B.
fn past_half<const A: u8, const B: u8>(s: &[u8], from: usize) -> usize
    requires { from ≤ length s.now }
    ensures { Passed A B s.now from result }
{
    if s.len() - from < HALF {
        return from;
    }
    if clear::<A, B>(&s[from..from + HALF]) {
        return from + HALF;
    }
    from
}

// The first index from `from` on where A or B stands; the length where neither stands anywhere.
pub(crate) fn either_from<const A: u8, const B: u8>(s: &[u8], from: usize) -> usize
    requires { from ≤ length s.now }
    ensures { EitherAt A B s.now from result }
{
    let near = past_half::<A, B>(s, past_runs::<A, B>(s, from));
    for i in near..s.len() {
        if (s[i] == A) | (s[i] == B) {
            return i;
        }
    }
    s.len()
}

// The same of one byte.
pub(crate) fn byte_from<const B: u8>(s: &[u8], from: usize) -> usize
    requires { from ≤ length s.now }
    ensures { FirstAt B s.now from result }
{
    either_from::<B, B>(s, from)
}
