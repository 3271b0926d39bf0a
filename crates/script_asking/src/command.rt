// The commands that change the table.
ghost use Rattle.std.specs.Prelude.{◌≡◌};
ghost use Rattle.state.specs.Table.{table_of};
ghost use Rattle.groups.specs.Groups.{groups_of};
ghost use Rattle.script_lines.specs.Values.{bytes_at};
ghost use Rattle.script_answers.specs.Done.{done_of};
ghost use Rattle.script_asking.specs.Asked.{add_asked, add_read_asked, store_asked, remove_asked, remove_all_asked, copy_asked, asked_command};

use asking::AskingHandler;
use script_answers::{Answer, Tail};
use script_commands::copy_request;
use script_lines::{Line, group_key, long, scene_key};
use text_input::part;

// A: add.
fn add(
    asking: AskingHandler,
    keys: &mut [u64],
    times: &mut [u32],
    fields: &mut [u8],
    records: &mut [u64],
    words: &[u64],
    line: &[u8],
    read: Line,
) -> Answer
    ensures { let before = table_of asking.state keys.old times.old fields.old records.old in
        let after = table_of result.state keys.new times.new fields.new records.new in
        let groups = groups_of asking.groups words.now in
        done_of result after ≡ add_asked read.values (bytes_at read line.now 6) (bytes_at read line.now 7) groups before }
{
    let pairs = part(line, read.starts[6], read.values[6] as usize);
    let ext = part(line, read.starts[7], read.values[7] as usize);
    let key = scene_key(read);
    let time = long(read.values[4]);
    Answer::plain(asking.add_scene(keys, times, fields, records, words, key, time, pairs, ext))
}

// B: add through the reader of field bytes.
fn add_read(
    asking: AskingHandler,
    keys: &mut [u64],
    times: &mut [u32],
    fields: &mut [u8],
    records: &mut [u64],
    words: &[u64],
    line: &[u8],
    read: Line,
) -> Answer
    ensures { let before = table_of asking.state keys.old times.old fields.old records.old in
        let after = table_of result.state keys.new times.new fields.new records.new in
        let groups = groups_of asking.groups words.now in
        done_of result after ≡ add_read_asked read.values (bytes_at read line.now 6) (bytes_at read line.now 7) groups before }
{
    let pairs = part(line, read.starts[6], read.values[6] as usize);
    let bytes = part(line, read.starts[7], read.values[7] as usize);
    let key = scene_key(read);
    let time = long(read.values[4]);
    Answer::plain(asking.add_scene_read(
        keys, times, fields, records, words, key, time, pairs, bytes,
    ))
}

// S: store.
fn store(
    asking: AskingHandler,
    keys: &mut [u64],
    times: &mut [u32],
    fields: &mut [u8],
    records: &mut [u64],
    words: &[u64],
    line: &[u8],
    read: Line,
) -> Answer
    ensures { let before = table_of asking.state keys.old times.old fields.old records.old in
        let after = table_of result.state keys.new times.new fields.new records.new in
        let groups = groups_of asking.groups words.now in
        done_of result after ≡ store_asked read.values (bytes_at read line.now 5) groups before }
{
    let captured = part(line, read.starts[5], read.values[5] as usize);
    let key = scene_key(read);
    let done = asking.store_scene(keys, times, fields, records, words, key, captured);
    let after = done.state;
    Answer {
        status: done.status,
        save: done.save,
        state: after,
        tail: Tail::Number(done.compared),
    }
}

// R: remove.
fn remove(
    asking: AskingHandler,
    keys: &mut [u64],
    times: &mut [u32],
    fields: &mut [u8],
    records: &mut [u64],
    words: &[u64],
    read: Line,
) -> Answer
    ensures { let before = table_of asking.state keys.old times.old fields.old records.old in
        let after = table_of result.state keys.new times.new fields.new records.new in
        let groups = groups_of asking.groups words.now in
        done_of result after ≡ remove_asked read.values groups before }
{
    let key = scene_key(read);
    Answer::plain(asking.remove_scene(keys, times, fields, records, words, key))
}

// X: remove all.
fn remove_all(
    asking: AskingHandler,
    keys: &mut [u64],
    times: &mut [u32],
    fields: &mut [u8],
    records: &mut [u64],
    words: &[u64],
    read: Line,
) -> Answer
    ensures { let before = table_of asking.state keys.old times.old fields.old records.old in
        let after = table_of result.state keys.new times.new fields.new records.new in
        let groups = groups_of asking.groups words.now in
        done_of result after ≡ remove_all_asked read.values groups before }
{
    let key = group_key(read);
    Answer::plain(asking.remove_all_scenes(keys, times, fields, records, words, key))
}

// C: copy.
fn copy(
    asking: AskingHandler,
    keys: &mut [u64],
    times: &mut [u32],
    fields: &mut [u8],
    records: &mut [u64],
    words: &[u64],
    read: Line,
) -> Answer
    ensures { let before = table_of asking.state keys.old times.old fields.old records.old in
        let after = table_of result.state keys.new times.new fields.new records.new in
        let groups = groups_of asking.groups words.now in
        done_of result after ≡ copy_asked read.values groups before }
{
    let c = copy_request(read);
    Answer::plain(asking.copy_scene(keys, times, fields, records, words, c))
}

// A command that changes the table.
pub fn asked_command(
    asking: AskingHandler,
    keys: &mut [u64],
    times: &mut [u32],
    fields: &mut [u8],
    records: &mut [u64],
    words: &[u64],
    line: &[u8],
    read: Line,
) -> Answer
    ensures { let before = table_of asking.state keys.old times.old fields.old records.old in
        let after = table_of result.state keys.new times.new fields.new records.new in
        let groups = groups_of asking.groups words.now in
        done_of result after ≡ asked_command read.letter read.values (bytes_at read line.now) groups before }
{
    let letter = read.letter;
    match letter {
        b'A' => add(asking, keys, times, fields, records, words, line, read),
        b'B' => add_read(asking, keys, times, fields, records, words, line, read),
        b'S' => store(asking, keys, times, fields, records, words, line, read),
        b'R' => remove(asking, keys, times, fields, records, words, read),
        b'X' => remove_all(asking, keys, times, fields, records, words, read),
        _ => copy(asking, keys, times, fields, records, words, read),
    }
}
