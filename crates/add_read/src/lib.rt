// Adding a scene by its raw field bytes: the pairs are read out of them.
#![tactic(auto)]

ghost use Rattle.std.specs.Prelude.{◌≡◌, true};
ghost use Rattle.words.specs.Refusals.{status_of};
ghost use Rattle.state.specs.Table.{table_of};
ghost use Rattle.state.specs.Sound.{sound};
ghost use Rattle.state.specs.Answer.{result_of};
ghost use Rattle.add_read.specs.Adding.{read_gate, add_scene_read};

use commands::Commands;
use field_sets::count_pairs;
use requests::Membership;
use state::{Outcome, ScenesState};
use words::{Limits, Refusal, SceneKey};

// The tests up to the one that the bytes are a list of sets with as many pairs as there are pair bytes. Those in front of it are an add's
// with no pairs and no fields.
#[tactic(auto, using(crate::proofs::Laws::refused_early))]
fn read_gate(
    key: SceneKey,
    time: u32,
    member: Membership,
    pairs: &[u8],
    ext: &[u8],
) -> Result<(), Refusal>
    ensures { status_of result ≡ read_gate key time member pairs.now ext.now }
{
    let limit = Limits::MAX_EXT_FIELDS_LEN;
    requests::add_gate(key, time, member, &pairs[..0], limit, 0)?;
    let Some(n) = count_pairs(ext) else {
        return Err(Refusal::BadFieldSets);
    };
    if n == pairs.len() {
        return Ok(());
    }
    Err(Refusal::BadFieldSets)
}

// The call on a table that is known to be sound: the tests up to 11, and then the add with the listed pairs.
pub fn add_read_sound(
    state: ScenesState,
    keys: &mut [u64],
    times: &mut [u32],
    fields: &mut [u8],
    records: &mut [u64],
    key: SceneKey,
    time: u32,
    member: Membership,
    pairs: &[u8],
    ext: &[u8],
) -> Outcome
    requires { sound (table_of state keys.old times.old fields.old records.old) ≡ true }
    ensures { let before = table_of state keys.old times.old fields.old records.old in
        let after = table_of result.state keys.new times.new fields.new records.new in
        result_of result.status result.save after ≡ add_scene_read key time member pairs.now ext.now before }
{
    if let Err(refusal) = read_gate(key, time, member, pairs, ext) {
        return Outcome::refused_by(refusal, state);
    }
    Commands { state }.add_scene(keys, times, fields, records, key, time, member, pairs, ext)
}

// Adds a scene, or gives it a new time and new fields. The host answered each pair in the field bytes with one pair byte, in order.
pub fn add_scene_read(
    state: ScenesState,
    keys: &mut [u64],
    times: &mut [u32],
    fields: &mut [u8],
    records: &mut [u64],
    key: SceneKey,
    time: u32,
    member: Membership,
    pairs: &[u8],
    ext: &[u8],
) -> Outcome
    ensures { let before = table_of state keys.old times.old fields.old records.old in
        let after = table_of result.state keys.new times.new fields.new records.new in
        result_of result.status result.save after ≡ add_scene_read key time member pairs.now ext.now before }
{
    if state.is_sound(keys, times, fields, records) {
        return add_read_sound(
            state, keys, times, fields, records, key, time, member, pairs, ext,
        );
    }
    Outcome::refused_by(Refusal::Unsound, state)
}
