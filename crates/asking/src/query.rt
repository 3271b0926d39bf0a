// The reads that take a membership: view, recall's lookup and membership.
ghost use Rattle.std.specs.Prelude.{◌≡◌};
ghost use Rattle.state.specs.Table.{table_of};
ghost use Rattle.reads.specs.Reads.{listed_of};
ghost use Rattle.groups.specs.Groups.{groups_of};
ghost use Rattle.asking.specs.Asking.{view_asking, lookup_asking, membership_asking};

use crate::{AskingHandler, group_of_scene};
use reads::{ListRead, SceneRead};
use scenes::ScenesHandler;
use words::{GroupKey, Refusal, SceneKey};

impl AskingHandler {
    // A scene's time, and its position.
    pub fn view_scene(
        self,
        keys: &[u64],
        times: &[u32],
        fields: &[u8],
        records: &[u64],
        words: &[u64],
        key: SceneKey,
    ) -> SceneRead
        ensures { let table = table_of self.state keys.now times.now fields.now records.now in
            let groups = groups_of self.groups words.now in
            result ≡ view_asking key groups table }
    {
        let state = self.state;
        if self.groups.is_sound(words) {
            let member = self.groups.member(words, group_of_scene(key));
            return ScenesHandler { state }.view_scene(keys, times, fields, records, key, member);
        }
        SceneRead::refused_by(Refusal::Unsound, state)
    }

    // What a recall applies.
    pub fn recall_lookup(
        self,
        keys: &[u64],
        times: &[u32],
        fields: &[u8],
        records: &[u64],
        words: &[u64],
        key: SceneKey,
        transition: Option<u32>,
    ) -> SceneRead
        ensures { let table = table_of self.state keys.now times.now fields.now records.now in
            let groups = groups_of self.groups words.now in
            result ≡ lookup_asking key transition groups table }
    {
        let state = self.state;
        if self.groups.is_sound(words) {
            let member = self.groups.member(words, group_of_scene(key));
            return ScenesHandler { state }.recall_lookup(
                keys, times, fields, records, key, member, transition,
            );
        }
        SceneRead::refused_by(Refusal::Unsound, state)
    }

    // A group's scene ids.
    pub fn get_scene_membership(
        self,
        keys: &[u64],
        times: &[u32],
        fields: &[u8],
        records: &[u64],
        words: &[u64],
        ids: &mut [u8],
        key: GroupKey,
    ) -> ListRead
        ensures { let table = table_of self.state keys.now times.now fields.now records.now in
            let groups = groups_of self.groups words.now in
            listed_of result ids.new ≡ membership_asking key ids.old groups table }
    {
        let state = self.state;
        if self.groups.is_sound(words) {
            let member = self.groups.member(words, key);
            return ScenesHandler { state }.get_scene_membership(
                keys, times, fields, records, ids, key, member,
            );
        }
        ListRead::refused_by(Refusal::Unsound, state)
    }
}
