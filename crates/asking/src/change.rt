// The commands that change the table.
ghost use Rattle.std.specs.Prelude.{◌≡◌};
ghost use Rattle.state.specs.Table.{table_of};
ghost use Rattle.state.specs.Answer.{result_of};
ghost use Rattle.commands.specs.Counted.{counted_of};
ghost use Rattle.groups.specs.Groups.{groups_of};
ghost use Rattle.asking.specs.Asking.{add_asking, add_read_asking, store_asking, remove_asking, remove_all_asking, recall_asking, copy_asking};

use crate::{AskingHandler, group_of_scene};
use commands::{Applied, Stored};
use requests::CopyRequest;
use scenes::ScenesHandler;
use state::Outcome;
use words::{GroupKey, Refusal, SceneKey};

impl AskingHandler {
    // Adds a scene, or gives it a new time and new fields.
    pub fn add_scene(
        self,
        keys: &mut [u64],
        times: &mut [u32],
        fields: &mut [u8],
        records: &mut [u64],
        words: &[u64],
        key: SceneKey,
        time: u32,
        pairs: &[u8],
        ext: &[u8],
    ) -> Outcome
        ensures { let before = table_of self.state keys.old times.old fields.old records.old in
            let after = table_of result.state keys.new times.new fields.new records.new in
            let groups = groups_of self.groups words.now in
            result_of result.status result.save after ≡ add_asking key time pairs.now ext.now groups before }
    {
        let state = self.state;
        if self.groups.is_sound(words) {
            let member = self.groups.member(words, group_of_scene(key));
            return ScenesHandler { state }.add_scene(
                keys, times, fields, records, key, time, member, pairs, ext,
            );
        }
        Outcome::refused_by(Refusal::Unsound, state)
    }

    // The same by its raw field bytes, out of which the pairs are read.
    pub fn add_scene_read(
        self,
        keys: &mut [u64],
        times: &mut [u32],
        fields: &mut [u8],
        records: &mut [u64],
        words: &[u64],
        key: SceneKey,
        time: u32,
        pairs: &[u8],
        ext: &[u8],
    ) -> Outcome
        ensures { let before = table_of self.state keys.old times.old fields.old records.old in
            let after = table_of result.state keys.new times.new fields.new records.new in
            let groups = groups_of self.groups words.now in
            result_of result.status result.save after ≡ add_read_asking key time pairs.now ext.now groups before }
    {
        let state = self.state;
        if self.groups.is_sound(words) {
            let member = self.groups.member(words, group_of_scene(key));
            return add_read::add_scene_read(
                state, keys, times, fields, records, key, time, member, pairs, ext,
            );
        }
        Outcome::refused_by(Refusal::Unsound, state)
    }

    // Stores captured bytes as a scene, and remembers it as the fabric's current one.
    pub fn store_scene(
        self,
        keys: &mut [u64],
        times: &mut [u32],
        fields: &mut [u8],
        records: &mut [u64],
        words: &[u64],
        key: SceneKey,
        captured: &[u8],
    ) -> Stored
        ensures { let before = table_of self.state keys.old times.old fields.old records.old in
            let after = table_of result.state keys.new times.new fields.new records.new in
            let groups = groups_of self.groups words.now in
            counted_of (result_of result.status result.save after) result.compared ≡ store_asking key captured.now groups before }
    {
        let state = self.state;
        if self.groups.is_sound(words) {
            let member = self.groups.member(words, group_of_scene(key));
            return ScenesHandler { state }.store_scene(
                keys, times, fields, records, key, member, captured,
            );
        }
        Stored::refused_by(Refusal::Unsound, state)
    }

    // Removes a scene.
    pub fn remove_scene(
        self,
        keys: &mut [u64],
        times: &mut [u32],
        fields: &mut [u8],
        records: &mut [u64],
        words: &[u64],
        key: SceneKey,
    ) -> Outcome
        ensures { let before = table_of self.state keys.old times.old fields.old records.old in
            let after = table_of result.state keys.new times.new fields.new records.new in
            let groups = groups_of self.groups words.now in
            result_of result.status result.save after ≡ remove_asking key groups before }
    {
        let state = self.state;
        if self.groups.is_sound(words) {
            let member = self.groups.member(words, group_of_scene(key));
            return ScenesHandler { state }.remove_scene(keys, times, fields, records, key, member);
        }
        Outcome::refused_by(Refusal::Unsound, state)
    }

    // Removes all scenes of a group on an endpoint.
    pub fn remove_all_scenes(
        self,
        keys: &mut [u64],
        times: &mut [u32],
        fields: &mut [u8],
        records: &mut [u64],
        words: &[u64],
        key: GroupKey,
    ) -> Outcome
        ensures { let before = table_of self.state keys.old times.old fields.old records.old in
            let after = table_of result.state keys.new times.new fields.new records.new in
            let groups = groups_of self.groups words.now in
            result_of result.status result.save after ≡ remove_all_asking key groups before }
    {
        let state = self.state;
        if self.groups.is_sound(words) {
            let member = self.groups.member(words, key);
            return ScenesHandler { state }.remove_all_scenes(
                keys, times, fields, records, key, member,
            );
        }
        Outcome::refused_by(Refusal::Unsound, state)
    }

    // Ends a recall: a scene that the host applied is remembered.
    pub fn recall_scene(
        self,
        keys: &[u64],
        times: &[u32],
        fields: &[u8],
        records: &mut [u64],
        words: &[u64],
        key: SceneKey,
        applied: Applied,
    ) -> Outcome
        ensures { let before = table_of self.state keys.now times.now fields.now records.old in
            let after = table_of result.state keys.now times.now fields.now records.new in
            let groups = groups_of self.groups words.now in
            result_of result.status result.save after ≡ recall_asking key applied groups before }
    {
        let state = self.state;
        if self.groups.is_sound(words) {
            let member = self.groups.member(words, group_of_scene(key));
            return ScenesHandler { state }.recall_scene(
                keys, times, fields, records, key, member, applied,
            );
        }
        Outcome::refused_by(Refusal::Unsound, state)
    }

    // Copies one scene, or all of a group.
    pub fn copy_scene(
        self,
        keys: &mut [u64],
        times: &mut [u32],
        fields: &mut [u8],
        records: &mut [u64],
        words: &[u64],
        c: CopyRequest,
    ) -> Outcome
        ensures { let before = table_of self.state keys.old times.old fields.old records.old in
            let after = table_of result.state keys.new times.new fields.new records.new in
            let groups = groups_of self.groups words.now in
            result_of result.status result.save after ≡ copy_asking c groups before }
    {
        let state = self.state;
        if self.groups.is_sound(words) {
            let source = self.groups.member(words, copies::group_key(c, c.from));
            let target = self.groups.member(words, copies::group_key(c, c.to));
            return ScenesHandler { state }.copy_scene(
                keys, times, fields, records, c, source, target,
            );
        }
        Outcome::refused_by(Refusal::Unsound, state)
    }
}
