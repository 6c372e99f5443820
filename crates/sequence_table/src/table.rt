// The table of 64 SA entries, in words that the caller lends; all words zero is the empty table. Any words at all get an answer.
//   a room  mark (0: free, else the protocol plus 1), destination, SPI, highest, window, counter
ghost use Rattle.std.specs.Prelude.{◌≡◌, ◌<◌, IfSome, unwrap_or};
ghost use Rattle.sequence_record.specs.Verdict.{verdict_told};
ghost use Rattle.sequence_table.specs.Outcome.{outcome_told};
ghost use Rattle.sequence_table.specs.Sending.{sending_told};
ghost use Rattle.sequence_table.specs.Counted.{counted_told};
ghost use Rattle.sequence_table.specs.Table.{rooms, holds, find, free, put_key, entry_at, put_entry, added, removed, packet, next_to_send, loss};

use refusal::Refusal;
use sequence_packet::{Packet, known, read};
use sequence_record::{Judged, LossLine, Receive, Verdict, loss_line, new_receive, step};

pub const ROOMS: usize = 64;

pub const WORDS: usize = 6;

// Words and not entries, since C lends them.
pub type Table = [u64; ROOMS * WORDS];

#[derive(Clone, Copy, Debug, PartialEq, Eq)]
pub struct Key {
    pub destination: u32,
    pub protocol: u8,
    pub spi: u32,
}

// What an entry keeps of its life beside its key. `counter` is the number last handed out for sending.
#[derive(Clone, Copy, Debug, PartialEq, Eq)]
pub struct Entry {
    pub receive: Receive,
    pub counter: u64,
}

// Whether a room holds a life of the key. The SPI comes first, since it parts most keys: the search runs through all rooms.
fn holds(t: &Table, key: Key, room: usize) -> bool
    requires { room < rooms }
    ensures { result ≡ holds t.now key room }
{
    let at = room * WORDS;
    t[at + 2] == key.spi as u64
        && (t[at] == key.protocol as u64 + 1) & (t[at + 1] == key.destination as u64)
}

// The room of the key.
fn find(t: &Table, key: Key) -> Option<usize>
    ensures place { unwrap_or result rooms ≡ find t.now key }
    ensures within { IfSome result (λ room. room < rooms) }
{
    for room in 0..ROOMS {
        if holds(t, key, room) {
            return Some(room);
        }
    }
    None
}

// The first free room.
fn free(t: &Table) -> Option<usize>
    ensures place { unwrap_or result rooms ≡ free t.now }
    ensures within { IfSome result (λ room. room < rooms) }
{
    for room in 0..ROOMS {
        if t[room * WORDS] == 0 {
            return Some(room);
        }
    }
    None
}

fn entry_at(t: &Table, room: usize) -> Entry
    requires { room < rooms }
    ensures { result ≡ entry_at t.now room }
{
    let at = room * WORDS;
    Entry {
        receive: Receive {
            highest: t[at + 3],
            window: t[at + 4],
        },
        counter: t[at + 5],
    }
}

fn put_entry(t: &mut Table, room: usize, e: Entry)
    requires { room < rooms }
    ensures { t.new ≡ put_entry t.old room e }
{
    let at = room * WORDS;
    t[at + 3] = e.receive.highest;
    t[at + 4] = e.receive.window;
    t[at + 5] = e.counter;
}

fn put_key(t: &mut Table, room: usize, key: Key)
    requires { room < rooms }
    ensures { t.new ≡ put_key t.old room key }
{
    let at = room * WORDS;
    t[at] = key.protocol as u64 + 1;
    t[at + 1] = key.destination as u64;
    t[at + 2] = key.spi as u64;
}

// Begins a life of the key.
pub fn add(t: &mut Table, key: Key) -> Result<(), Refusal>
    ensures { added t.old key ≡ (outcome_told result, t.new) }
{
    if !known(key.protocol) {
        return Err(Refusal::InvalidProtocolId);
    }
    if key.spi < 256 {
        return Err(Refusal::InvalidSpi);
    }
    if find(t, key).is_some() {
        return Err(Refusal::EntryPresent);
    }
    let room = free(t).ok_or(Refusal::TableFull)?;
    put_key(t, room, key);
    put_entry(
        t,
        room,
        Entry {
            receive: new_receive(),
            counter: 0,
        },
    );
    Ok(())
}

// Ends the key's life.
pub fn remove(t: &mut Table, key: Key) -> Result<(), Refusal>
    ensures { removed t.old key ≡ (outcome_told result, t.new) }
{
    let room = find(t, key).ok_or(Refusal::InvalidSpi)?;
    t[room * WORDS] = 0;
    Ok(())
}

// A packet to a destination; integrity is what the caller says of it.
pub fn packet(t: &mut Table, destination: u32, protocol: u8, integrity: bool, s: &[u8]) -> Verdict
    ensures { packet t.old destination protocol integrity s.now ≡ (verdict_told result, t.new) }
{
    let Packet { spi, number } = read(protocol, s)?;
    let packet_key = Key {
        destination,
        protocol,
        spi,
    };
    let room = find(t, packet_key).ok_or(Refusal::InvalidSpi)?;
    let entry = entry_at(t, room);
    let Judged { receive, verdict } = step(entry.receive, number, integrity);
    put_entry(t, room, Entry { receive, ..entry });
    verdict
}

// The next number for a packet that the key's life sends.
pub fn send(t: &mut Table, key: Key) -> Result<u32, Refusal>
    ensures { next_to_send t.old key ≡ (sending_told result, t.new) }
{
    let room = find(t, key).ok_or(Refusal::InvalidSpi)?;
    let entry = entry_at(t, room);
    let last = entry.counter;
    if 4294967295 <= last {
        return Err(Refusal::CounterAtEnd);
    }
    let next = last + 1;
    put_entry(
        t,
        room,
        Entry {
            counter: next,
            ..entry
        },
    );
    Ok(next as u32)
}

// The loss line of the key's life.
pub fn loss(t: &Table, key: Key) -> Result<LossLine, Refusal>
    ensures { counted_told result ≡ loss t.now key }
{
    let entry = entry_at(t, find(t, key).ok_or(Refusal::InvalidSpi)?);
    Ok(loss_line(entry.receive))
}
