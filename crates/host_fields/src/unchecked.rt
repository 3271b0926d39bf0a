// The add by raw field bytes without the test of the table, which asks that it is sound: as the exports of the crate `host_unchecked`.
ghost use Rattle.std.specs.Prelude.{◌≡◌, true};
ghost use Rattle.state.specs.Table.{table_of};
ghost use Rattle.state.specs.Sound.{sound};
ghost use Rattle.state.specs.Answer.{result_of};
ghost use Rattle.requests.specs.Requests.{membership_of};
ghost use Rattle.add_read.specs.Adding.{add_scene_read};

use add_read::add_read_sound;
use requests::Membership;
use state::{Outcome, ScenesState};
use words::SceneKey;

// Adds a scene by its raw field bytes, each of whose pairs the host answered with one pair byte.
#[unsafe(no_mangle)]
pub extern "C" fn scenes_add_read_unchecked(
    state: ScenesState,
    keys: &mut [u64],
    times: &mut [u32],
    fields: &mut [u8],
    records: &mut [u64],
    key: SceneKey,
    time: u32,
    member: u8,
    pairs: &[u8],
    ext: &[u8],
) -> Outcome
    requires { sound (table_of state keys.old times.old fields.old records.old) ≡ true }
    ensures { let before = table_of state keys.old times.old fields.old records.old in
        let after = table_of result.state keys.new times.new fields.new records.new in
        result_of result.status result.save after ≡ add_scene_read key time (membership_of member) pairs.now ext.now before }
{
    add_read_sound(
        state,
        keys,
        times,
        fields,
        records,
        key,
        time,
        Membership::from(member),
        pairs,
        ext,
    )
}
