// The uplink packet: the mark `SBR`, the version, the port, the count, and the piece: that many bytes of the port's line.
#![tactic(auto)]

ghost use Rattle.std.specs.Prelude.{◌≡◌, ◌+◌, ◌*◌, ◌≤◌, length};
ghost use Rattle.std.proofs.lemmas.List.Edits.{sets};
ghost use Rattle.uplink.specs.Packet.{version_for, known, counted, lead_length, lead, marked, IsRead, IsWritten};

use answers::Refusal;

// The packet's mark, compared by `read` and written by `write`.
const MARK: [u8; 3] = *b"SBR";

// The lead: mark, version, port and count.
pub const LEAD: usize = 7;

// The longest piece of one packet.
pub const PIECE_MAX: usize = 240;

// What the bytes at the front of a slice are read as. The piece is the `count` bytes behind the lead; what follows the `used` bytes belongs to
// the next packet.
#[derive(Clone, Copy)]
pub struct Packet {
    pub port: u8,
    pub count: u8,
    pub used: usize,
}

// The version that carries a port, where one does. No other place, in reader or writer, says which version goes with
// which port: 00 01 with the ports 1 to 3, and 00 02 with port 4 alone.
#[tactic(auto, unfolding(crate::specs::Packet::version_of))]
fn version_of(port: u8) -> Option<u16>
    ensures { result ≡ version_for port }
{
    match port {
        1..=3 => Some(1),
        4 => Some(2),
        _ => None,
    }
}

// Whether a version carries any port: it is that of port 1 or that of port 4.
fn known(version: u16) -> bool
    ensures { result ≡ known version }
{
    (Some(version) == version_of(1)) | (Some(version) == version_of(4))
}

// Whether a packet's piece may have so many bytes.
fn counted(count: usize) -> bool
    ensures { result ≡ counted count }
{
    (1 <= count) & (count <= PIECE_MAX)
}

// Whether the mark stands at the front of a whole lead.
fn marked(s: &[u8]) -> bool
    requires { lead_length ≤ length s.now }
    ensures { result ≡ marked s.now }
{
    s.starts_with(&MARK)
}

// Reads the packet at the front of `s`, and copies nothing. That bytes of the piece are missing is the last test, so that a wrong
// packet is refused as soon as its lead is there.
pub fn read(s: &[u8]) -> Result<Packet, Refusal>
    ensures { IsRead s.now result }
{
    if s.len() < LEAD {
        return Err(Refusal::BytesMissing);
    }
    if !marked(s) {
        return Err(Refusal::WrongMark);
    }
    let version = u16::from_be_bytes([s[3], s[4]]);
    if !known(version) {
        return Err(Refusal::WrongVersion);
    }
    let port = s[5];
    let count = s[6];
    let n = usize::from(count);
    if !((version_of(port) == Some(version)) & counted(n)) {
        return Err(Refusal::WrongPortOrCount);
    }
    let used = LEAD + n;
    if s.len() < used {
        return Err(Refusal::BytesMissing);
    }
    Ok(Packet { port, count, used })
}

// Stores a packet's lead at the front of `lent`.
fn put_lead(version: u16, port: u8, count: u8, lent: &mut [u8])
    requires { lead_length ≤ length lent.old }
    ensures { lent.new ≡ sets lent.old 0 (lead version port count) }
{
    let [high, low] = version.to_be_bytes();
    lent[..LEAD].copy_from_slice(&[MARK[0], MARK[1], MARK[2], high, low, port, count]);
}

// Writes the packet that carries `piece` for `port` at the front of `lent`. Nothing is stored before every test has held.
pub fn write(port: u8, piece: &[u8], lent: &mut [u8]) -> Result<usize, Refusal>
    ensures { IsWritten port piece.now lent.old result lent.new }
{
    let count = piece.len();
    let (Some(version), true) = (version_of(port), counted(count)) else {
        return Err(Refusal::WrongPortOrCount);
    };
    let used = LEAD + count;
    if lent.len() < used {
        return Err(Refusal::NoRoom);
    }
    put_lead(version, port, count as u8, lent);
    lent[LEAD..used].copy_from_slice(piece);
    Ok(used)
}
