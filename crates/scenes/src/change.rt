// The commands that change the table.
ghost use Rattle.std.specs.Prelude.{◌≡◌};
ghost use Rattle.state.specs.Table.{table_of};
ghost use Rattle.state.specs.Answer.{result_of};
ghost use Rattle.commands.specs.Commands.{add_scene, remove_scene, remove_all_scenes, recall_scene};
ghost use Rattle.commands.specs.Counted.{counted_of, store_counted};
ghost use Rattle.copies.specs.Copy.{copy_scene};

use crate::ScenesHandler;
use commands::{Applied, Commands, Stored};
use copies::Copies;
use requests::{CopyRequest, Membership};
use state::Outcome;
use words::{GroupKey, Refusal, SceneKey};

impl ScenesHandler {
    // Adds a scene, or gives it a new time and new fields.
    pub fn add_scene(
        self,
        keys: &mut [u64],
        times: &mut [u32],
        fields: &mut [u8],
        records: &mut [u64],
        key: SceneKey,
        time: u32,
        member: Membership,
        pairs: &[u8],
        ext: &[u8],
    ) -> Outcome
        ensures { let before = table_of self.state keys.old times.old fields.old records.old in
            let after = table_of result.state keys.new times.new fields.new records.new in
            result_of result.status result.save after ≡ add_scene key time member pairs.now ext.now before }
    {
        let state = self.state;
        if state.is_sound(keys, times, fields, records) {
            return Commands { state }.add_scene(
                keys, times, fields, records, key, time, member, pairs, ext,
            );
        }
        self.unsound()
    }

    // Stores captured bytes as a scene, and remembers it as the fabric's current one. The test of the table finds the scene on its way.
    pub fn store_scene(
        self,
        keys: &mut [u64],
        times: &mut [u32],
        fields: &mut [u8],
        records: &mut [u64],
        key: SceneKey,
        member: Membership,
        captured: &[u8],
    ) -> Stored
        ensures { let before = table_of self.state keys.old times.old fields.old records.old in
            let after = table_of result.state keys.new times.new fields.new records.new in
            counted_of (result_of result.status result.save after) result.compared ≡ store_counted key member captured.now before }
    {
        let state = self.state;
        let Ok(found) = state.search(keys, times, fields, records, key.word()) else {
            return Stored::refused_by(Refusal::Unsound, state);
        };
        Commands { state }.store_found(keys, times, fields, records, found, key, member, captured)
    }

    // Removes a scene: the last entry takes its place.
    pub fn remove_scene(
        self,
        keys: &mut [u64],
        times: &mut [u32],
        fields: &mut [u8],
        records: &mut [u64],
        key: SceneKey,
        member: Membership,
    ) -> Outcome
        ensures { let before = table_of self.state keys.old times.old fields.old records.old in
            let after = table_of result.state keys.new times.new fields.new records.new in
            result_of result.status result.save after ≡ remove_scene key member before }
    {
        let state = self.state;
        if state.is_sound(keys, times, fields, records) {
            return Commands { state }.remove_scene(keys, times, fields, records, key, member);
        }
        self.unsound()
    }

    // Removes all scenes of a group on an endpoint.
    pub fn remove_all_scenes(
        self,
        keys: &mut [u64],
        times: &mut [u32],
        fields: &mut [u8],
        records: &mut [u64],
        key: GroupKey,
        member: Membership,
    ) -> Outcome
        ensures { let before = table_of self.state keys.old times.old fields.old records.old in
            let after = table_of result.state keys.new times.new fields.new records.new in
            result_of result.status result.save after ≡ remove_all_scenes key member before }
    {
        let state = self.state;
        if state.is_sound(keys, times, fields, records) {
            return Commands { state }.remove_all_scenes(keys, times, fields, records, key, member);
        }
        self.unsound()
    }

    // Ends a recall: a scene that the host has applied becomes the fabric's current one.
    pub fn recall_scene(
        self,
        keys: &[u64],
        times: &[u32],
        fields: &[u8],
        records: &mut [u64],
        key: SceneKey,
        member: Membership,
        applied: Applied,
    ) -> Outcome
        ensures { let before = table_of self.state keys.now times.now fields.now records.old in
            let after = table_of result.state keys.now times.now fields.now records.new in
            result_of result.status result.save after ≡ recall_scene key member applied before }
    {
        let state = self.state;
        if state.is_sound(keys, times, fields, records) {
            return Commands { state }.recall_scene(
                keys, times, fields, records, key, member, applied,
            );
        }
        self.unsound()
    }

    // Copies a scene, or with bit 0 of the mode a whole group.
    pub fn copy_scene(
        self,
        keys: &mut [u64],
        times: &mut [u32],
        fields: &mut [u8],
        records: &mut [u64],
        request: CopyRequest,
        source: Membership,
        target: Membership,
    ) -> Outcome
        ensures { let before = table_of self.state keys.old times.old fields.old records.old in
            let after = table_of result.state keys.new times.new fields.new records.new in
            result_of result.status result.save after ≡ copy_scene request source target before }
    {
        let state = self.state;
        if state.is_sound(keys, times, fields, records) {
            return Copies { state }.copy_scene(
                keys, times, fields, records, request, source, target,
            );
        }
        self.unsound()
    }
}
