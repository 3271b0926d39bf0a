// Saving the image of a table into a lent buffer.
#![tactic(auto)]

ghost use Rattle.std.specs.Prelude.{◌≡◌, true};
ghost use Rattle.words.specs.Refusals.{number_of};
ghost use Rattle.state.specs.Table.{table_of};
ghost use Rattle.state.specs.Sound.{sound};
ghost use Rattle.image_save.specs.Saving.{saved_of, save_image};

use image_writer::{image_len, put_image};
use state::ScenesState;
use words::{Refusal, Status};

// The answer: the head as it came, and how many bytes of the buffer are the image.
#[repr(C)]
#[derive(Clone, Copy)]
pub struct ImageSaved {
    pub state: ScenesState,
    pub status: u8,
    pub len: usize,
}

impl ImageSaved {
    pub fn refused(status: u8, state: ScenesState) -> ImageSaved
        ensures { result ≡ record { status = status; len = 0; state = state } }
    {
        ImageSaved {
            status,
            len: 0,
            state,
        }
    }

    // The same, by the refusal itself.
    pub fn refused_by(refusal: Refusal, state: ScenesState) -> ImageSaved
        ensures { result ≡ record { status = number_of refusal; len = 0; state = state } }
    {
        ImageSaved::refused(u8::from(refusal), state)
    }
}

// The call on a table that is known to be sound. The length of the image is counted before the first byte is written.
pub fn save_sound(
    state: ScenesState,
    keys: &[u64],
    times: &[u32],
    fields: &[u8],
    records: &[u64],
    buffer: &mut [u8],
) -> ImageSaved
    requires { sound (table_of state keys.now times.now fields.now records.now) ≡ true }
    ensures { let t = table_of state keys.now times.now fields.now records.now in
        saved_of result buffer.new ≡ save_image buffer.old t }
{
    let entries = state.entries;
    let recorded = state.recorded;
    if buffer.len() < image_len(keys, times, fields, entries, records, recorded) {
        return ImageSaved::refused_by(Refusal::BufferTooShort, state);
    }
    let len = put_image(buffer, keys, times, fields, entries, records, recorded);
    ImageSaved {
        status: Status::SUCCESS,
        len,
        state,
    }
}

// Writes the image of a table into the front of a buffer. One that is too short is answered 8, with nothing written.
pub fn save_image(
    state: ScenesState,
    keys: &[u64],
    times: &[u32],
    fields: &[u8],
    records: &[u64],
    buffer: &mut [u8],
) -> ImageSaved
    ensures { let t = table_of state keys.now times.now fields.now records.now in
        saved_of result buffer.new ≡ save_image buffer.old t }
{
    if state.is_sound(keys, times, fields, records) {
        return save_sound(state, keys, times, fields, records, buffer);
    }
    ImageSaved::refused_by(Refusal::Unsound, state)
}
