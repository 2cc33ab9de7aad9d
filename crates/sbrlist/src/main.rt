// Lists the messages and damages of uplink packets: standard input to standard output. It reads, calls and writes; what is listed is decided in `listing`.
//
// What is read from and written to are parameters: a contract can name the bytes of a writer that holds them, and those of the system's own streams it
// cannot.
#![tactic(auto)]

ghost use Rattle.std.specs.Prelude.{◌-◌, ◌≤◌, ◌≡◌, length, take, IfOk, OnOk};
ghost use Rattle.std.specs.Io.{ReadsAtMost};
ghost use Rattle.std.specs.Io.KnownBytes.{Appends};
ghost use Rattle.listing.specs.Steps.{room_least};
ghost use Rattle.sbrlist.specs.Run.{part, moved_front, IsReadOn, IsStarted, IsFilled, Handed, Printed};

use answers::Refusal;
use listing::{Heard, Listed, Listing};
use std::io;
use std::io::{ErrorKind, Read, Write};

// What one buffer holds.
const BUFFER: usize = 65536;

// What is at hand of the input, as a part of its buffer, and whether no more is to come.
#[derive(Clone, Copy)]
struct Window {
    from: usize,
    to: usize,
    ended: bool,
}

// Why there is no end line.
#[derive(Drop)]
enum Failure {
    Reading(io::Error),
    Writing(io::Error),
    Listing(Refusal),
}

// Moves a part of the buffer to its front.
fn move_front(input: &mut [u8], from: usize, to: usize)
    requires { (from ≤ to) × (to ≤ length input.old) }
    ensures { input.new ≡ moved_front from to input.old }
{
    input.copy_within(from..to, 0);
}

// Whether a read that answered this was interrupted by a signal.
fn interrupted(got: &io::Result<usize>) -> bool {
    match got {
        Ok(_) => false,
        Err(e) => e.kind() == ErrorKind::Interrupted,
    }
}

// One read of what is there. One that was interrupted is made again; that they are counted only shows that this ends.
fn read_some<R: Read>(source: &mut R, buffer: &mut [u8]) -> io::Result<usize>
    ensures { ReadsAtMost result buffer.new }
{
    for _ in 0..u64::MAX {
        let got = source.read(buffer);
        if !interrupted(&got) {
            return got;
        }
    }
    source.read(buffer)
}

// One read of what is there, behind what is at hand.
fn read_on<R: Read>(
    source: &mut R,
    input: &mut [u8],
    from: usize,
    to: usize,
) -> Result<Window, Failure>
    requires { (from ≤ to) × (to ≤ length input.old) }
    ensures read { IfOk result (λ window. IsReadOn input.old from to window input.new) }
    ensures kept { take (to - from) input.new ≡ part from to input.old }
{
    move_front(input, from, to);
    let n = to - from;
    let more = read_some(source, &mut input[n..]).map_err(Failure::Reading)?;
    Ok(Window {
        from: 0,
        to: n + more,
        ended: more == 0,
    })
}

// What stands in the output buffer up to `at` is written.
fn flush<W: Write>(target: &mut W, out: &[u8], at: usize) -> Result<(), Failure>
    requires { at ≤ length out.now }
    ensures handed { OnOk result (Handed (take at out.now)) }
    ensures bytes { OnOk result (Appends (W.contents target.old) (W.contents target.new) (take at out.now)) }
{
    target.write_all(&out[..at]).map_err(Failure::Writing)
}

// The header stands in the buffer.
fn start(out: &mut [u8]) -> usize
    requires { room_least ≤ length out.old }
    ensures { IsStarted out.old result out.new }
{
    listing_text::title(out).unwrap_or(0)
}

// Before the first call: nothing is taken, and input is wanted.
fn none_taken(listing: Listing) -> Listed
    ensures { result.listing ≡ listing }
{
    let heard = Heard::More;
    Listed {
        listing,
        heard,
        used: 0,
        wrote: 0,
    }
}

// Packet by packet, going on from a call, as far as what is at hand of the input and the room for lines go.
fn fill(mut s: Listed, input: &[u8], ended: bool, out: &mut [u8]) -> Listed
    requires { room_least ≤ length out.old }
    ensures { IsFilled s.listing input.now ended out.old result out.new }
{
    let mut used: usize = 0;
    let mut at: usize = 0;
    // A `loop`: what a call came to ends it, and a turn goes on by what it used and wrote.
    loop {
        s = s.listing.step(&input[used..], ended, &mut out[at..]);
        used += s.used;
        at += s.wrote;
        let heard = s.heard;
        match heard {
            Heard::Packet => {}
            Heard::More | Heard::End | Heard::Refused(_) => break,
        }
        if out.len() - at < listing::ROOM {
            break;
        }
    }
    s.used = used;
    s.wrote = at;
    s
}

// Until the listing ends. Output is written before a read that may wait. A read or a write that fails ends it, and then there is no end line.
fn list<R: Read, W: Write>(
    source: &mut R,
    target: &mut W,
    input: &mut [u8],
    out: &mut [u8],
) -> Result<(), Failure>
    requires { room_least ≤ length out.old }
    ensures { OnOk result (Printed input.new) }
{
    let header = start(out);
    flush(target, out, header)?;
    let mut s = none_taken(Listing::fresh());
    let mut from: usize = 0;
    let mut to: usize = 0;
    let mut ended = false;
    // A `loop` too: it ends where the listing does, and nothing counts its turns.
    loop {
        s = fill(s, &input[from..to], ended, out);
        from += s.used;
        let at = s.wrote;
        flush(target, out, at)?;
        let heard = s.heard;
        match heard {
            Heard::Packet => {}
            Heard::More => {
                let w = read_on(source, input, from, to)?;
                from = w.from;
                to = w.to;
                ended = w.ended;
            }
            Heard::End => return Ok(()),
            Heard::Refused(why) => return Err(Failure::Listing(why)),
        }
    }
}

// What ended the listing too early, but nothing where nobody reads the output any more.
fn say_why<E: Eprint>(why: Failure, errors: &E) {
    match why {
        Failure::Reading(e) => {
            let _ = eprintln!(errors; "sbrlist: standard input cannot be read: {e}");
        }
        Failure::Writing(e) => {
            if e.kind() != ErrorKind::BrokenPipe {
                let _ = eprintln!(errors; "sbrlist: standard output cannot be written: {e}");
            }
        }
        Failure::Listing(_) => {}
    }
}

fn main(rt: HostRuntime) {
    let mut input = [0u8; BUFFER];
    let mut out = [0u8; BUFFER];
    if let Err(why) = list(&mut rt.stdin(), &mut rt.stdout(), &mut input, &mut out) {
        say_why(why, &rt);
    }
}
