// Loading an image into a table. All that refuses it is decided before the first write, and an image of no bytes is a startup.
#![tactic(auto)]

mod writing;

ghost use Rattle.std.specs.Prelude.{◌≡◌, true};
ghost use Rattle.state.specs.Table.{table_of};
ghost use Rattle.state.specs.Sound.{sound};
ghost use Rattle.state.specs.Answer.{result_of};
ghost use Rattle.image_load.specs.Loading.{load_image};

use image_gate::image_gate;
use image_reader::arrays_in;
use lifecycle::Lifecycle;
use state::{Outcome, ScenesState};
use words::{Refusal, Status};
use writing::restore;

// The call on a table that is known to be sound. An image that is refused leaves it as it came.
pub fn load_sound(
    state: ScenesState,
    keys: &mut [u64],
    times: &mut [u32],
    fields: &mut [u8],
    records: &mut [u64],
    image: &[u8],
) -> Outcome
    requires { sound (table_of state keys.old times.old fields.old records.old) ≡ true }
    ensures { let before = table_of state keys.old times.old fields.old records.old in
        let after = table_of result.state keys.new times.new fields.new records.new in
        result_of result.status result.save after ≡ load_image image.now before }
{
    if image.len() == 0 {
        return Lifecycle { state }.startup(keys, times, fields, records);
    }
    let Some(arrays) = arrays_in(image) else {
        return Outcome::refused_by(Refusal::BadImage, state);
    };
    if let Err(refusal) = image_gate(image, arrays.entries, arrays.records, state.size) {
        return Outcome::refused_by(refusal, state);
    }
    let loaded = restore(state, keys, times, fields, records, image, arrays);
    Outcome::unsaved(Status::SUCCESS, loaded)
}

// Replaces the entries and the records of a table by those of an image, in order, and steps the data version. No bytes leave none of either, at
// the version that it had.
pub fn load_image(
    state: ScenesState,
    keys: &mut [u64],
    times: &mut [u32],
    fields: &mut [u8],
    records: &mut [u64],
    image: &[u8],
) -> Outcome
    ensures { let before = table_of state keys.old times.old fields.old records.old in
        let after = table_of result.state keys.new times.new fields.new records.new in
        result_of result.status result.save after ≡ load_image image.now before }
{
    if state.is_sound(keys, times, fields, records) {
        return load_sound(state, keys, times, fields, records, image);
    }
    Outcome::refused_by(Refusal::Unsound, state)
}
