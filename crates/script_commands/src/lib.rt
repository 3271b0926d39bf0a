// The commands of a script that change the table, one for each letter: inputs from the words of a line, one call, what it answers.
#![tactic(auto)]

ghost use Rattle.std.specs.Prelude.{◌≡◌};
ghost use Rattle.state.specs.Table.{table_of};
ghost use Rattle.script_lines.specs.Values.{bytes_at};
ghost use Rattle.script_answers.specs.Done.{done_of};
ghost use Rattle.script_commands.specs.Commands.{copy_request, add, add_read, store, remove, remove_all, copy, command};

use add_read::add_scene_read;
use requests::{CopyRequest, GroupScene};
use scenes::ScenesHandler;
use script_answers::{Answer, Tail};
use script_lines::{Line, byte, group_key, long, member, scene_key, short};
use state::ScenesState;
use text_input::part;

// The copy that the first seven words name.
pub fn copy_request(read: Line) -> CopyRequest
    ensures { result ≡ copy_request read.values }
{
    let from = GroupScene {
        group: short(read.values[3]),
        scene: byte(read.values[4]),
    };
    let to = GroupScene {
        group: short(read.values[5]),
        scene: byte(read.values[6]),
    };
    CopyRequest {
        fabric: byte(read.values[0]),
        endpoint: short(read.values[1]),
        mode: byte(read.values[2]),
        from,
        to,
    }
}

// A: add.
fn add(
    state: ScenesState,
    keys: &mut [u64],
    times: &mut [u32],
    fields: &mut [u8],
    records: &mut [u64],
    line: &[u8],
    read: Line,
) -> Answer
    ensures { let before = table_of state keys.old times.old fields.old records.old in
        let after = table_of result.state keys.new times.new fields.new records.new in
        done_of result after ≡ add read.values (bytes_at read line.now 6) (bytes_at read line.now 7) before }
{
    let pairs = part(line, read.starts[6], read.values[6] as usize);
    let ext = part(line, read.starts[7], read.values[7] as usize);
    let key = scene_key(read);
    let time = long(read.values[4]);
    let member = member(read.values[5]);
    Answer::plain(ScenesHandler { state }.add_scene(
        keys, times, fields, records, key, time, member, pairs, ext,
    ))
}

// B: add through the reader of field bytes.
fn add_read(
    state: ScenesState,
    keys: &mut [u64],
    times: &mut [u32],
    fields: &mut [u8],
    records: &mut [u64],
    line: &[u8],
    read: Line,
) -> Answer
    ensures { let before = table_of state keys.old times.old fields.old records.old in
        let after = table_of result.state keys.new times.new fields.new records.new in
        done_of result after ≡ add_read read.values (bytes_at read line.now 6) (bytes_at read line.now 7) before }
{
    let pairs = part(line, read.starts[6], read.values[6] as usize);
    let bytes = part(line, read.starts[7], read.values[7] as usize);
    let key = scene_key(read);
    let time = long(read.values[4]);
    let member = member(read.values[5]);
    Answer::plain(add_scene_read(
        state, keys, times, fields, records, key, time, member, pairs, bytes,
    ))
}

// S: store.
fn store(
    state: ScenesState,
    keys: &mut [u64],
    times: &mut [u32],
    fields: &mut [u8],
    records: &mut [u64],
    line: &[u8],
    read: Line,
) -> Answer
    ensures { let before = table_of state keys.old times.old fields.old records.old in
        let after = table_of result.state keys.new times.new fields.new records.new in
        done_of result after ≡ store read.values (bytes_at read line.now 5) before }
{
    let captured = part(line, read.starts[5], read.values[5] as usize);
    let key = scene_key(read);
    let member = member(read.values[4]);
    let done = ScenesHandler { state }.store_scene(
        keys, times, fields, records, key, member, captured,
    );
    let after = done.state;
    Answer {
        status: done.status,
        save: done.save,
        state: after,
        tail: Tail::Number(done.compared),
    }
}

// R: remove.
fn remove(
    state: ScenesState,
    keys: &mut [u64],
    times: &mut [u32],
    fields: &mut [u8],
    records: &mut [u64],
    read: Line,
) -> Answer
    ensures { let before = table_of state keys.old times.old fields.old records.old in
        let after = table_of result.state keys.new times.new fields.new records.new in
        done_of result after ≡ remove read.values before }
{
    let key = scene_key(read);
    let member = member(read.values[4]);
    Answer::plain(ScenesHandler { state }.remove_scene(keys, times, fields, records, key, member))
}

// X: remove all.
fn remove_all(
    state: ScenesState,
    keys: &mut [u64],
    times: &mut [u32],
    fields: &mut [u8],
    records: &mut [u64],
    read: Line,
) -> Answer
    ensures { let before = table_of state keys.old times.old fields.old records.old in
        let after = table_of result.state keys.new times.new fields.new records.new in
        done_of result after ≡ remove_all read.values before }
{
    let key = group_key(read);
    let member = member(read.values[3]);
    Answer::plain(ScenesHandler { state }.remove_all_scenes(
        keys, times, fields, records, key, member,
    ))
}

// C: copy.
fn copy(
    state: ScenesState,
    keys: &mut [u64],
    times: &mut [u32],
    fields: &mut [u8],
    records: &mut [u64],
    read: Line,
) -> Answer
    ensures { let before = table_of state keys.old times.old fields.old records.old in
        let after = table_of result.state keys.new times.new fields.new records.new in
        done_of result after ≡ copy read.values before }
{
    let c = copy_request(read);
    let source = member(read.values[7]);
    let target = member(read.values[8]);
    Answer::plain(ScenesHandler { state }.copy_scene(
        keys, times, fields, records, c, source, target,
    ))
}

// A command that changes the table.
pub fn command(
    state: ScenesState,
    keys: &mut [u64],
    times: &mut [u32],
    fields: &mut [u8],
    records: &mut [u64],
    line: &[u8],
    read: Line,
) -> Answer
    ensures { let before = table_of state keys.old times.old fields.old records.old in
        let after = table_of result.state keys.new times.new fields.new records.new in
        done_of result after ≡ command read.letter read.values (bytes_at read line.now) before }
{
    let letter = read.letter;
    match letter {
        b'A' => add(state, keys, times, fields, records, line, read),
        b'B' => add_read(state, keys, times, fields, records, line, read),
        b'S' => store(state, keys, times, fields, records, line, read),
        b'R' => remove(state, keys, times, fields, records, read),
        b'X' => remove_all(state, keys, times, fields, records, read),
        _ => copy(state, keys, times, fields, records, read),
    }
}
