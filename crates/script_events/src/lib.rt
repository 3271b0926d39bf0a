// The events of a script: notices and lifecycle events of the host, and its raw writes.
#![tactic(auto)]

mod writes;

ghost use Rattle.std.specs.Prelude.{◌≡◌};
ghost use Rattle.state.specs.Table.{table_of};
ghost use Rattle.script_answers.specs.Done.{done_of};
ghost use Rattle.script_events.specs.Events.{event};

use scenes::ScenesHandler;
use script_answers::Answer;
use script_lines::{Line, short};
use state::ScenesState;
pub use writes::host_write;

// An attribute notice, or another event of the host.
pub fn event(
    state: ScenesState,
    keys: &mut [u64],
    times: &mut [u32],
    fields: &mut [u8],
    records: &mut [u64],
    read: Line,
) -> Answer
    ensures { let before = table_of state keys.old times.old fields.old records.old in
        let after = table_of result.state keys.new times.new fields.new records.new in
        done_of result after ≡ event read.letter read.values before }
{
    let letter = read.letter;
    match letter {
        b'T' => {
            let endpoint = short(read.values[0]);
            Answer::plain(ScenesHandler { state }.scenable_attribute_changed(
                keys, times, fields, records, endpoint,
            ))
        }
        b'U' => Answer::plain(ScenesHandler { state }.startup(keys, times, fields, records)),
        b'W' => Answer::plain(ScenesHandler { state }.fail_safe_commit(
            keys, times, fields, records,
        )),
        _ => Answer::plain(ScenesHandler { state }.fail_safe_expiry(keys, times, fields, records)),
    }
}
