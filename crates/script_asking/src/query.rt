// The reads, and a recall.
ghost use Rattle.std.specs.Prelude.{◌≡◌};
ghost use Rattle.state.specs.Table.{table_of};
ghost use Rattle.groups.specs.Groups.{groups_of};
ghost use Rattle.script_answers.specs.Done.{done_of, called_of};
ghost use Rattle.script_asking.specs.Asked.{view_asked, recall_asked, list_asked, list_in_asked, asked_query};

use asking::AskingHandler;
use script_answers::Answer;
use script_lines::{Line, group_key, scene_key};
use script_reads::{applied, list_tail, scene_tail, transition};

// V: view.
fn view(
    asking: AskingHandler,
    keys: &[u64],
    times: &[u32],
    fields: &[u8],
    records: &[u64],
    words: &[u64],
    read: Line,
) -> Answer
    ensures { let before = table_of asking.state keys.now times.now fields.now records.now in
        let after = table_of result.state keys.now times.now fields.now records.now in
        let groups = groups_of asking.groups words.now in
        done_of result after ≡ view_asked read.values groups before }
{
    let key = scene_key(read);
    let found = asking.view_scene(keys, times, fields, records, words, key);
    let state = found.state;
    Answer {
        status: found.status,
        save: false,
        state,
        tail: scene_tail(found),
    }
}

// L: recall, its lookup and its end.
fn recall(
    asking: AskingHandler,
    keys: &[u64],
    times: &[u32],
    fields: &[u8],
    records: &mut [u64],
    words: &[u64],
    read: Line,
) -> Answer
    ensures { let before = table_of asking.state keys.now times.now fields.now records.old in
        let after = table_of result.state keys.now times.now fields.now records.new in
        let groups = groups_of asking.groups words.now in
        done_of result after ≡ recall_asked read.values groups before }
{
    let key = scene_key(read);
    let time = transition(read.values[5]);
    let end = applied(read.values[6]);
    let found = asking.recall_lookup(keys, times, fields, records, words, key, time);
    let done = asking.recall_scene(keys, times, fields, records, words, key, end);
    let state = done.state;
    Answer {
        status: done.status,
        save: done.save,
        state,
        tail: scene_tail(found),
    }
}

// M: membership, in the front of the list buffer.
fn list(
    asking: AskingHandler,
    keys: &[u64],
    times: &[u32],
    fields: &[u8],
    records: &[u64],
    words: &[u64],
    buffer: &mut [u8],
    read: Line,
) -> Answer
    ensures { let before = table_of asking.state keys.now times.now fields.now records.now in
        let after = table_of result.state keys.now times.now fields.now records.now in
        let groups = groups_of asking.groups words.now in
        called_of (done_of result after) buffer.new ≡ list_asked read.values buffer.old groups before }
{
    let key = group_key(read);
    let listed = asking.get_scene_membership(keys, times, fields, records, words, buffer, key);
    let state = listed.state;
    Answer {
        status: listed.status,
        save: false,
        state,
        tail: list_tail(listed),
    }
}

// The front of the list buffer that an M line asks for.
fn list_in(
    asking: AskingHandler,
    keys: &[u64],
    times: &[u32],
    fields: &[u8],
    records: &[u64],
    words: &[u64],
    buffer: &mut [u8],
    read: Line,
) -> Answer
    ensures { let before = table_of asking.state keys.now times.now fields.now records.now in
        let after = table_of result.state keys.now times.now fields.now records.now in
        let groups = groups_of asking.groups words.now in
        called_of (done_of result after) buffer.new ≡ list_in_asked read.values buffer.old groups before }
{
    let n = (read.values[4] as usize).min(buffer.len());
    list(
        asking,
        keys,
        times,
        fields,
        records,
        words,
        &mut buffer[..n],
        read,
    )
}

// A read, or a recall.
pub fn asked_query(
    asking: AskingHandler,
    keys: &[u64],
    times: &[u32],
    fields: &[u8],
    records: &mut [u64],
    words: &[u64],
    buffer: &mut [u8],
    read: Line,
) -> Answer
    ensures { let before = table_of asking.state keys.now times.now fields.now records.old in
        let after = table_of result.state keys.now times.now fields.now records.new in
        let groups = groups_of asking.groups words.now in
        called_of (done_of result after) buffer.new ≡ asked_query read.letter read.values buffer.old groups before }
{
    let letter = read.letter;
    match letter {
        b'V' => view(asking, keys, times, fields, records, words, read),
        b'L' => recall(asking, keys, times, fields, records, words, read),
        _ => list_in(asking, keys, times, fields, records, words, buffer, read),
    }
}
