// Copies of one scene, or of a whole group, on a table that is known to be sound: `copy_scene` has that one condition, which the outward
// call meets by a test.
#![tactic(auto)]

ghost use Rattle.std.specs.Prelude.{◌≡◌, true, ◌<◌};
ghost use Rattle.words.specs.Constants.{not_found};
ghost use Rattle.words.specs.Refusals.{status_of};
ghost use Rattle.state.specs.Table.{table_of, entries_of, EntryRoom, CopyRoom};
ghost use Rattle.state.specs.Sound.{sound};
ghost use Rattle.state.specs.Answer.{result_of};
ghost use Rattle.copies.specs.Copy.{copied_of, copy_entry, copy_walk, source_key, target_key, source_group, target_group, copy_single, copy_sources, target_scope, copy_scenes_inner, copy_scene};

use records::Scope;
use requests::{CopyRequest, GroupScene, Membership};
use state::{Outcome, ScenesState};
use words::{GroupKey, KeyRange, Refusal, SceneKey};

// The head of a table that is known to be sound.
#[derive(Clone, Copy)]
pub struct Copies {
    pub state: ScenesState,
}

// What a copy of entries answers, with the head: what was copied before a refusal stays.
#[derive(Clone, Copy)]
struct Copied {
    pub state: ScenesState,
    pub answer: Result<(), Refusal>,
}

impl Copies {
    // Copies the entry at a position to a key: over the entry that has it, or behind the last one while the fabric has room.
    fn copy_entry(
        self,
        keys: &mut [u64],
        times: &mut [u32],
        fields: &mut [u8],
        at: usize,
        key: SceneKey,
    ) -> Copied
        requires entry_room { EntryRoom (entries_of self.state keys.old times.old fields.old) }
        requires at_lt_entries { at < self.state.entries }
        ensures { let before = entries_of self.state keys.old times.old fields.old in
            let after = entries_of result.state keys.new times.new fields.new in
            copied_of (status_of result.answer) after ≡ copy_entry at key before }
    {
        let mut state = self.state;
        let n = state.entries;
        let word = key.word();
        let Some(to) = slots::find(keys, n, word) else {
            if state.room_for_fab(keys, key.fabric) == 0 {
                return Copied {
                    answer: Err(Refusal::InsufficientSpace),
                    state,
                };
            }
            slot_writes::put_copy(keys, times, fields, at, n, word);
            state.entries = n + 1;
            return Copied {
                answer: Ok(()),
                state,
            };
        };
        slot_writes::put_copy(keys, times, fields, at, to, word);
        Copied {
            answer: Ok(()),
            state,
        }
    }

    // Copies the scenes of a group to another, in table order, up to the first that finds no room.
    fn copy_group(
        self,
        keys: &mut [u64],
        times: &mut [u32],
        fields: &mut [u8],
        from: GroupKey,
        to: GroupKey,
    ) -> Copied
        requires { EntryRoom (entries_of self.state keys.old times.old fields.old) }
        ensures { let before = entries_of self.state keys.old times.old fields.old in
            let after = entries_of result.state keys.new times.new fields.new in
            copied_of (status_of result.answer) after ≡ copy_walk from to self.state.entries 0 not_found before }
    {
        let mut state = self.state;
        let n = state.entries;
        let range = KeyRange::Group(from);
        let mut answer = Err(Refusal::NotFound);
        for i in 0..n {
            let word = keys[i];
            if !range.holds(word) {
                continue;
            }
            let key = SceneKey {
                fabric: to.fabric,
                endpoint: to.endpoint,
                group: to.group,
                scene: words::scene_of(word),
            };
            let done = Copies { state }.copy_entry(keys, times, fields, i, key);
            answer = done.answer;
            state = done.state;
            if answer.is_err() {
                return Copied { answer, state };
            }
        }
        Copied { answer, state }
    }

    // Copies one scene, the first that has the source's key.
    fn copy_single(
        self,
        keys: &mut [u64],
        times: &mut [u32],
        fields: &mut [u8],
        from: SceneKey,
        to: SceneKey,
    ) -> Copied
        requires { EntryRoom (entries_of self.state keys.old times.old fields.old) }
        ensures { let before = entries_of self.state keys.old times.old fields.old in
            let after = entries_of result.state keys.new times.new fields.new in
            copied_of (status_of result.answer) after ≡ copy_single from to before }
    {
        let state = self.state;
        let n = state.entries;
        let Some(at) = slots::find(keys, n, from.word()) else {
            return Copied {
                answer: Err(Refusal::NotFound),
                state,
            };
        };
        self.copy_entry(keys, times, fields, at, to)
    }

    // The sources that the mode asks for.
    fn copy_sources(
        self,
        keys: &mut [u64],
        times: &mut [u32],
        fields: &mut [u8],
        c: CopyRequest,
    ) -> Copied
        requires { EntryRoom (entries_of self.state keys.old times.old fields.old) }
        ensures { let before = entries_of self.state keys.old times.old fields.old in
            let after = entries_of result.state keys.new times.new fields.new in
            copied_of (status_of result.answer) after ≡ copy_sources c before }
    {
        if requests::is_whole_group(c.mode) {
            return self.copy_group(
                keys,
                times,
                fields,
                group_key(c, c.from),
                group_key(c, c.to),
            );
        }
        self.copy_single(
            keys,
            times,
            fields,
            scene_key(c, c.from),
            scene_key(c, c.to),
        )
    }

    // The records that a copy invalidates, and the copy itself, once the request is admitted.
    fn copy_scenes_inner(
        self,
        keys: &mut [u64],
        times: &mut [u32],
        fields: &mut [u8],
        records: &mut [u64],
        c: CopyRequest,
    ) -> Outcome
        requires { CopyRoom (table_of self.state keys.old times.old fields.old records.old) }
        ensures { let before = table_of self.state keys.old times.old fields.old records.old in
            let after = table_of result.state keys.new times.new fields.new records.new in
            result_of result.status result.save after ≡ copy_scenes_inner c before }
    {
        let before = self.state;
        if before.room_for_fab(keys, c.fabric) == 0 {
            return Outcome::refused_by(Refusal::InsufficientSpace, before);
        }
        let done = self.copy_sources(keys, times, fields, c);
        let state = done.state;
        if let Err(refusal) = done.answer {
            return Outcome::refused_by(refusal, state);
        }
        Outcome::saved(state.invalidate_current(records, target_scope(c)))
    }

    // Copies a scene, or with bit 0 of the mode a whole group.
    pub fn copy_scene(
        self,
        keys: &mut [u64],
        times: &mut [u32],
        fields: &mut [u8],
        records: &mut [u64],
        request: CopyRequest,
        source: Membership,
        target: Membership,
    ) -> Outcome
        requires { sound (table_of self.state keys.old times.old fields.old records.old) ≡ true }
        ensures { let before = table_of self.state keys.old times.old fields.old records.old in
            let after = table_of result.state keys.new times.new fields.new records.new in
            result_of result.status result.save after ≡ copy_scene request source target before }
    {
        let state = self.state;
        if let Err(refusal) = requests::copy_gate(request, source, target) {
            return Outcome::refused_by(refusal, state);
        }
        self.copy_scenes_inner(keys, times, fields, records, request)
    }
}

// A group that a copy names, as its source or as its target.
pub fn group_key(c: CopyRequest, named: GroupScene) -> GroupKey
    ensures { result ≡ record { fabric = c.fabric; endpoint = c.endpoint; group = named.group } }
{
    GroupKey {
        fabric: c.fabric,
        endpoint: c.endpoint,
        group: named.group,
    }
}

// A scene that a copy names, likewise.
fn scene_key(c: CopyRequest, named: GroupScene) -> SceneKey
    ensures { result ≡ record { fabric = c.fabric; endpoint = c.endpoint; group = named.group; scene = named.scene } }
{
    let GroupKey {
        fabric,
        endpoint,
        group,
    } = group_key(c, named);
    SceneKey {
        fabric,
        endpoint,
        group,
        scene: named.scene,
    }
}

// The records that a successful copy invalidates.
fn target_scope(c: CopyRequest) -> Scope
    ensures { result ≡ target_scope c }
{
    if requests::is_whole_group(c.mode) {
        return Scope::Group(group_key(c, c.to));
    }
    Scope::Scene(scene_key(c, c.to))
}
