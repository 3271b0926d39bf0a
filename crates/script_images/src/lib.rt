// The images of a script: one is saved, or loaded.
#![tactic(auto)]

ghost use Rattle.std.specs.Prelude.{◌≡◌};
ghost use Rattle.state.specs.Table.{table_of};
ghost use Rattle.script_lines.specs.Values.{bytes_at};
ghost use Rattle.script_answers.specs.Done.{done_of, called_of};
ghost use Rattle.script_images.specs.Images.{image_tail, save, save_in, load, image};

use image_load::load_image;
use image_save::{ImageSaved, save_image};
use script_answers::{Answer, Tail};
use script_lines::Line;
use state::ScenesState;
use text_input::part;
use words::Status;

// The length of an image that was saved.
fn image_tail(saved: ImageSaved) -> Tail
    ensures { result ≡ image_tail saved }
{
    if saved.status == Status::SUCCESS {
        return Tail::Image(saved.len);
    }
    Tail::Nothing
}

// P: the image, in a buffer.
fn save(
    state: ScenesState,
    keys: &[u64],
    times: &[u32],
    fields: &[u8],
    records: &[u64],
    buffer: &mut [u8],
) -> Answer
    ensures { let before = table_of state keys.now times.now fields.now records.now in
        let after = table_of result.state keys.now times.now fields.now records.now in
        called_of (done_of result after) buffer.new ≡ save buffer.old before }
{
    let saved = save_image(state, keys, times, fields, records, buffer);
    let state = saved.state;
    Answer {
        status: saved.status,
        save: false,
        state,
        tail: image_tail(saved),
    }
}

// The front of the image buffer that a P line asks for.
fn save_in(
    state: ScenesState,
    keys: &[u64],
    times: &[u32],
    fields: &[u8],
    records: &[u64],
    buffer: &mut [u8],
    read: Line,
) -> Answer
    ensures { let before = table_of state keys.now times.now fields.now records.now in
        let after = table_of result.state keys.now times.now fields.now records.now in
        called_of (done_of result after) buffer.new ≡ save_in read.values buffer.old before }
{
    let n = (read.values[0] as usize).min(buffer.len());
    save(state, keys, times, fields, records, &mut buffer[..n])
}

// G: an image is loaded.
fn load(
    state: ScenesState,
    keys: &mut [u64],
    times: &mut [u32],
    fields: &mut [u8],
    records: &mut [u64],
    line: &[u8],
    read: Line,
) -> Answer
    ensures { let before = table_of state keys.old times.old fields.old records.old in
        let after = table_of result.state keys.new times.new fields.new records.new in
        done_of result after ≡ load (bytes_at read line.now 0) before }
{
    let bytes = part(line, read.starts[0], read.values[0] as usize);
    Answer::plain(load_image(state, keys, times, fields, records, bytes))
}

// A letter of images.
pub fn image(
    state: ScenesState,
    keys: &mut [u64],
    times: &mut [u32],
    fields: &mut [u8],
    records: &mut [u64],
    buffer: &mut [u8],
    line: &[u8],
    read: Line,
) -> Answer
    ensures { let before = table_of state keys.old times.old fields.old records.old in
        let after = table_of result.state keys.new times.new fields.new records.new in
        let bytes = bytes_at read line.now in
        called_of (done_of result after) buffer.new ≡ image read.letter read.values bytes buffer.old before }
{
    if read.letter == b'P' {
        return save_in(state, keys, times, fields, records, buffer, read);
    }
    load(state, keys, times, fields, records, line, read)
}
