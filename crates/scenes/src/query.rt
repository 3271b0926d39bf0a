// The reads: view, recall's lookup, the field bytes at a position, membership and info.
ghost use Rattle.std.specs.Prelude.{◌≡◌};
ghost use Rattle.state.specs.Table.{table_of};
ghost use Rattle.reads.specs.Reads.{view_scene, recall_lookup, field_bytes, listed_of, get_scene_membership, read_fabric_scene_info};

use crate::ScenesHandler;
use reads::{InfoRead, ListRead, Reads, SceneRead};
use requests::Membership;
use words::{GroupKey, Refusal, SceneKey};

impl ScenesHandler {
    // A scene's time, and its position, at which `field_bytes` hands out its fields.
    pub fn view_scene(
        self,
        keys: &[u64],
        times: &[u32],
        fields: &[u8],
        records: &[u64],
        key: SceneKey,
        member: Membership,
    ) -> SceneRead
        ensures { let table = table_of self.state keys.now times.now fields.now records.now in
            result ≡ view_scene key member table }
    {
        let state = self.state;
        if state.is_sound(keys, times, fields, records) {
            return Reads { state }.view_scene(keys, times, fields, records, key, member);
        }
        SceneRead::refused_by(Refusal::Unsound, state)
    }

    // What a recall applies: the effective time and the position of the scene's fields. The host applies them, then ends the recall.
    pub fn recall_lookup(
        self,
        keys: &[u64],
        times: &[u32],
        fields: &[u8],
        records: &[u64],
        key: SceneKey,
        member: Membership,
        transition: Option<u32>,
    ) -> SceneRead
        ensures { let table = table_of self.state keys.now times.now fields.now records.now in
            result ≡ recall_lookup key member transition table }
    {
        let state = self.state;
        if state.is_sound(keys, times, fields, records) {
            return Reads { state }.recall_lookup(
                keys, times, fields, records, key, member, transition,
            );
        }
        SceneRead::refused_by(Refusal::Unsound, state)
    }

    // The field bytes of the entry at a position, as a part of the lent slice: none past the entries or in a table that is not sound.
    pub fn field_bytes<'a>(
        self,
        keys: &[u64],
        times: &[u32],
        fields: &'a [u8],
        records: &[u64],
        at: usize,
    ) -> &'a [u8]
        ensures { let table = table_of self.state keys.now times.now fields.now records.now in
            result.now ≡ field_bytes at table }
    {
        let state = self.state;
        if state.is_sound(keys, times, fields, records) {
            return Reads { state }.field_bytes(keys, times, fields, records, at);
        }
        &fields[..0]
    }

    // The remaining capacity, and the scene ids of a group, in table order, in the front of a lent buffer.
    pub fn get_scene_membership(
        self,
        keys: &[u64],
        times: &[u32],
        fields: &[u8],
        records: &[u64],
        ids: &mut [u8],
        key: GroupKey,
        member: Membership,
    ) -> ListRead
        ensures { let table = table_of self.state keys.now times.now fields.now records.now in
            listed_of result ids.new ≡ get_scene_membership key member ids.old table }
    {
        let state = self.state;
        if state.is_sound(keys, times, fields, records) {
            return Reads { state }.get_scene_membership(
                keys, times, fields, records, ids, key, member,
            );
        }
        ListRead::refused_by(Refusal::Unsound, state)
    }

    // The fabric's row of FabricSceneInfo on an endpoint, if it has an entry there or a record.
    pub fn read_fabric_scene_info(
        self,
        keys: &[u64],
        times: &[u32],
        fields: &[u8],
        records: &[u64],
        fabric: u8,
        endpoint: u16,
        single: bool,
    ) -> InfoRead
        ensures { let table = table_of self.state keys.now times.now fields.now records.now in
            result ≡ read_fabric_scene_info fabric endpoint single table }
    {
        let state = self.state;
        if state.is_sound(keys, times, fields, records) {
            return Reads { state }.read_fabric_scene_info(
                keys, times, fields, records, fabric, endpoint, single,
            );
        }
        InfoRead::absent(Refusal::Unsound as u8, state)
    }
}
