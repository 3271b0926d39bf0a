// The reads of a script, and its recall, one for each letter: inputs from the words of a line, what the table is asked, what it answers.
#![tactic(auto)]

ghost use Rattle.std.specs.Prelude.{◌≡◌};
ghost use Rattle.state.specs.Table.{table_of};
ghost use Rattle.script_answers.specs.Done.{done_of, called_of};
ghost use Rattle.script_reads.specs.Reads.{applied, transition, scene_tail, list_tail, info_tail, view, recall, list, list_in, info, query};

use commands::Applied;
use reads::{InfoRead, ListRead, SceneRead};
use scenes::ScenesHandler;
use script_answers::{Answer, Row, Tail};
use script_lines::{Bounds, Line, byte, group_key, long, member, scene_key, short};
use state::ScenesState;
use words::Status;

// Whether the host applied a scene, by the last word of a recall.
pub fn applied(value: u64) -> Applied
    ensures { result ≡ applied value }
{
    if value == 0 {
        return Applied::Failed;
    }
    Applied::Yes
}

// The override of a recall.
pub fn transition(value: u64) -> Option<u32>
    ensures { result ≡ transition value }
{
    if value == Bounds::STORED {
        return None;
    }
    Some(long(value))
}

// The time, position and length of a scene that was found.
pub fn scene_tail(found: SceneRead) -> Tail
    ensures { result ≡ scene_tail found }
{
    if found.status == Status::SUCCESS {
        return Tail::Scene(found.time, found.at, found.len);
    }
    Tail::Nothing
}

// The remaining capacity and the length of a list that was read.
pub fn list_tail(listed: ListRead) -> Tail
    ensures { result ≡ list_tail listed }
{
    if listed.status == Status::SUCCESS {
        return Tail::Ids(listed.remaining, listed.len);
    }
    Tail::Nothing
}

fn info_tail(info: InfoRead) -> Tail
    ensures { result ≡ info_tail info }
{
    if info.status == Status::SUCCESS {
        if info.present {
            return Tail::Info(Row {
                count: info.count,
                group: info.group,
                scene: info.scene,
                valid: info.valid,
                remaining: info.remaining,
                fabric: info.fabric,
            });
        }
        return Tail::NoRow;
    }
    Tail::Nothing
}

// V: view.
fn view(
    state: ScenesState,
    keys: &[u64],
    times: &[u32],
    fields: &[u8],
    records: &[u64],
    read: Line,
) -> Answer
    ensures { let before = table_of state keys.now times.now fields.now records.now in
        let after = table_of result.state keys.now times.now fields.now records.now in
        done_of result after ≡ view read.values before }
{
    let key = scene_key(read);
    let member = member(read.values[4]);
    let found = ScenesHandler { state }.view_scene(keys, times, fields, records, key, member);
    let state = found.state;
    Answer {
        status: found.status,
        save: false,
        state,
        tail: scene_tail(found),
    }
}

// L: recall, its lookup and its end.
fn recall(
    state: ScenesState,
    keys: &[u64],
    times: &[u32],
    fields: &[u8],
    records: &mut [u64],
    read: Line,
) -> Answer
    ensures { let before = table_of state keys.now times.now fields.now records.old in
        let after = table_of result.state keys.now times.now fields.now records.new in
        done_of result after ≡ recall read.values before }
{
    let key = scene_key(read);
    let member = member(read.values[4]);
    let time = transition(read.values[5]);
    let end = applied(read.values[6]);
    let found = ScenesHandler { state }.recall_lookup(
        keys, times, fields, records, key, member, time,
    );
    let done = ScenesHandler { state }.recall_scene(keys, times, fields, records, key, member, end);
    let state = done.state;
    Answer {
        status: done.status,
        save: done.save,
        state,
        tail: scene_tail(found),
    }
}

// M: membership, in the front of the list buffer.
fn list(
    state: ScenesState,
    keys: &[u64],
    times: &[u32],
    fields: &[u8],
    records: &[u64],
    buffer: &mut [u8],
    read: Line,
) -> Answer
    ensures { let before = table_of state keys.now times.now fields.now records.now in
        let after = table_of result.state keys.now times.now fields.now records.now in
        called_of (done_of result after) buffer.new ≡ list read.values buffer.old before }
{
    let key = group_key(read);
    let member = member(read.values[3]);
    let listed = ScenesHandler { state }.get_scene_membership(
        keys, times, fields, records, buffer, key, member,
    );
    let state = listed.state;
    Answer {
        status: listed.status,
        save: false,
        state,
        tail: list_tail(listed),
    }
}

// The front of the list buffer that an M line asks for.
fn list_in(
    state: ScenesState,
    keys: &[u64],
    times: &[u32],
    fields: &[u8],
    records: &[u64],
    buffer: &mut [u8],
    read: Line,
) -> Answer
    ensures { let before = table_of state keys.now times.now fields.now records.now in
        let after = table_of result.state keys.now times.now fields.now records.now in
        called_of (done_of result after) buffer.new ≡ list_in read.values buffer.old before }
{
    let n = (read.values[4] as usize).min(buffer.len());
    list(state, keys, times, fields, records, &mut buffer[..n], read)
}

// I: info.
fn info(
    state: ScenesState,
    keys: &[u64],
    times: &[u32],
    fields: &[u8],
    records: &[u64],
    read: Line,
) -> Answer
    ensures { let before = table_of state keys.now times.now fields.now records.now in
        let after = table_of result.state keys.now times.now fields.now records.now in
        done_of result after ≡ info read.values before }
{
    let fabric = byte(read.values[0]);
    let endpoint = short(read.values[1]);
    let single = read.values[2] == 1;
    let row = ScenesHandler { state }.read_fabric_scene_info(
        keys, times, fields, records, fabric, endpoint, single,
    );
    let state = row.state;
    Answer {
        status: row.status,
        save: false,
        state,
        tail: info_tail(row),
    }
}

// A read, or a recall.
pub fn query(
    state: ScenesState,
    keys: &[u64],
    times: &[u32],
    fields: &[u8],
    records: &mut [u64],
    buffer: &mut [u8],
    read: Line,
) -> Answer
    ensures { let before = table_of state keys.now times.now fields.now records.old in
        let after = table_of result.state keys.now times.now fields.now records.new in
        called_of (done_of result after) buffer.new ≡ query read.letter read.values buffer.old before }
{
    let letter = read.letter;
    match letter {
        b'V' => view(state, keys, times, fields, records, read),
        b'L' => recall(state, keys, times, fields, records, read),
        b'M' => list_in(state, keys, times, fields, records, buffer, read),
        _ => info(state, keys, times, fields, records, read),
    }
}
