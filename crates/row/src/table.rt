// The table: the rows of eight rooms end to end, each a part of the words that the caller lends.
ghost use Rattle.std.specs.Prelude.{◌≡◌, ◌<◌, length};
ghost use Rattle.records.specs.Numbers.{room_count};
ghost use Rattle.rules.specs.Tables.{restarted_table};
ghost use Rattle.row.specs.Table.{table_length, row_at, table_of, table_words, sound_table, SoundTable};

use crate::lent::Row;
use crate::{changes, checks, layout};
use records::numbers::ROOMS;

const ROWS: usize = ROOMS as usize;

pub const WORDS: usize = ROWS * layout::WORDS;

// Check 2 of every room; no branch between them.
pub fn is_sound(t: &[u32]) -> bool
    ensures { result ≡ sound_table t.now }
{
    if t.len() != WORDS {
        return false;
    }
    rows_sound(t)
}

fn rows_sound(t: &[u32]) -> bool
    requires { length t.now ≡ table_length }
    ensures { result ≡ sound_table t.now }
{
    let mut ok = true;
    for row in t.chunks_exact(layout::WORDS) {
        ok = checks::is_sound(row) & ok;
    }
    ok
}

// The row of a room.
pub fn row_of<'a>(t: &'a [u32], room: u8) -> &'a [u32]
    requires { (length t.now ≡ table_length) × (room < room_count) }
    ensures { result.now ≡ row_at t.now room }
{
    let at = layout::WORDS * usize::from(room);
    &t[at..at + layout::WORDS]
}

// The same of a table that passes check 2. No type says that it does: step_held, and Session in feed, have words.
pub fn row_in<'a>(t: &'a [u32], room: u8) -> Row<'a>
    requires { SoundTable t.now × (room < room_count) }
    ensures { result.words.now ≡ row_at t.now room }
{
    Row {
        words: row_of(t, room),
    }
}

// The number of the current view of a room.
pub fn view_number(t: &[u32], room: u8) -> u32
    requires { SoundTable t.now × (room < room_count) }
    ensures { result ≡ (table_of t.now room).view.number }
{
    row_in(t, room).view_number()
}

// The states of an office that begins again at number m, the same in every room, over any words.
pub fn put_restarted(t: &mut [u32], office: u8, m: u32)
    requires { length t.old ≡ table_length }
    ensures { t.new ≡ table_words (restarted_table office m) }
{
    // Not by chunks_exact_mut: std does not say what the words are after it, so the proof did not close.
    for room in 0..ROWS {
        let at = layout::WORDS * room;
        changes::put_restarted(&mut t[at..at + layout::WORDS], office, m);
    }
}
