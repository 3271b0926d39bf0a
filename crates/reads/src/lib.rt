// The reads of a table that is known to be sound: view, recall's lookup, the field bytes at a position, membership and info. Each has that
// one condition, which the outward call of the same name meets by a test.
#![tactic(auto)]

ghost use Rattle.std.specs.Prelude.{◌≡◌, true, false, ◌+◌, ◌*◌, ◌≤◌, min, length};
ghost use Rattle.words.specs.Constants.{success, max_scenes, max_shown, stride};
ghost use Rattle.words.specs.Refusals.{number_of};
ghost use Rattle.slots.specs.Slots.{length_at};
ghost use Rattle.state.specs.Table.{table_of};
ghost use Rattle.state.specs.Sound.{sound};
ghost use Rattle.reads.specs.Reads.{rowless, effective_time, view_scene, recall_lookup, field_bytes, listed_of, get_scene_membership, read_fabric_scene_info};

use requests::Membership;
use state::ScenesState;
use words::{EndpointKey, GroupKey, KeyRange, Limits, Refusal, SceneKey, Status};

// What a view, or the lookup of a recall, answers: the time, the entry's position, and how many field bytes it has. A refusal has time 0,
// a position past any table's entries, and length 0. The head is in front, as in `Outcome`.
#[repr(C)]
#[derive(Clone, Copy)]
pub struct SceneRead {
    pub state: ScenesState,
    pub status: u8,
    pub time: u32,
    pub at: usize,
    pub len: usize,
}

// What a membership read answers: the remaining capacity, and how many scene ids it wrote.
#[repr(C)]
#[derive(Clone, Copy)]
pub struct ListRead {
    pub state: ScenesState,
    pub status: u8,
    pub remaining: u8,
    pub len: usize,
}

// What an info read answers: whether there is a row, and the row.
#[repr(C)]
#[derive(Clone, Copy)]
pub struct InfoRead {
    pub state: ScenesState,
    pub status: u8,
    pub present: bool,
    pub count: u8,
    pub group: u16,
    pub scene: u8,
    pub valid: bool,
    pub remaining: u8,
    pub fabric: u8,
}

// The head of a table that is known to be sound.
#[derive(Clone, Copy)]
pub struct Reads {
    pub state: ScenesState,
}

impl SceneRead {
    pub fn refused(status: u8, state: ScenesState) -> SceneRead
        ensures { result ≡ record { status = status; time = 0; at = max_scenes; len = 0; state = state } }
    {
        SceneRead {
            status,
            time: 0,
            at: Limits::MAX_SCENES,
            len: 0,
            state,
        }
    }

    // The same, by the refusal itself.
    pub fn refused_by(refusal: Refusal, state: ScenesState) -> SceneRead
        ensures { result ≡ record { status = number_of refusal; time = 0; at = max_scenes; len = 0; state = state } }
    {
        SceneRead::refused(u8::from(refusal), state)
    }

    // The scene at a position.
    fn found(state: ScenesState, time: u32, fields: &[u8], at: usize) -> SceneRead
        requires { at * stride + stride ≤ length fields.now }
        ensures { result ≡ record { status = success; time = time; at = at; len = length_at fields.now at; state = state } }
    {
        let len = slots::length_at(fields, at);
        SceneRead {
            status: Status::SUCCESS,
            time,
            at,
            len,
            state,
        }
    }
}

impl ListRead {
    pub fn refused(status: u8, state: ScenesState) -> ListRead
        ensures { result ≡ record { status = status; remaining = 0; len = 0; state = state } }
    {
        ListRead {
            status,
            remaining: 0,
            len: 0,
            state,
        }
    }

    // The same, by the refusal itself.
    pub fn refused_by(refusal: Refusal, state: ScenesState) -> ListRead
        ensures { result ≡ record { status = number_of refusal; remaining = 0; len = 0; state = state } }
    {
        ListRead::refused(u8::from(refusal), state)
    }
}

impl InfoRead {
    // No row: a refusal, or a fabric that the table does not know.
    pub fn absent(status: u8, state: ScenesState) -> InfoRead
        ensures { result ≡ rowless status state }
    {
        InfoRead {
            status,
            present: false,
            count: 0,
            group: 0,
            scene: 0,
            valid: false,
            remaining: 0,
            fabric: 0,
            state,
        }
    }

    // The same, by the refusal itself.
    pub fn refused_by(refusal: Refusal, state: ScenesState) -> InfoRead
        ensures { result ≡ rowless (number_of refusal) state }
    {
        InfoRead::absent(u8::from(refusal), state)
    }

    // A row: the count is cut to a byte.
    fn row(
        count: usize,
        group: u16,
        scene: u8,
        valid: bool,
        remaining: u8,
        fabric: u8,
        state: ScenesState,
    ) -> InfoRead
        ensures { result ≡ record {
          status = success;
          present = true;
          count = min count max_shown;
          group = group;
          scene = scene;
          valid = valid;
          remaining = remaining;
          fabric = fabric;
          state = state;
        } }
    {
        InfoRead {
            status: Status::SUCCESS,
            present: true,
            count: count.min(Limits::MAX_SHOWN) as u8,
            group,
            scene,
            valid,
            remaining,
            fabric,
            state,
        }
    }
}

// The override if there is one, else the stored time.
fn effective_time(transition: Option<u32>, time: u32) -> u32
    ensures { result ≡ effective_time transition time }
{
    transition.unwrap_or(time)
}

impl Reads {
    // A scene's time, and its position, at which `field_bytes` hands out its fields.
    pub fn view_scene(
        self,
        keys: &[u64],
        times: &[u32],
        fields: &[u8],
        records: &[u64],
        key: SceneKey,
        member: Membership,
    ) -> SceneRead
        requires { sound (table_of self.state keys.now times.now fields.now records.now) ≡ true }
        ensures { let table = table_of self.state keys.now times.now fields.now records.now in
            result ≡ view_scene key member table }
    {
        let state = self.state;
        if let Err(refusal) = requests::lookup_gate(key, member) {
            return SceneRead::refused_by(refusal, state);
        }
        let n = state.entries;
        let Some(at) = slots::find(keys, n, key.word()) else {
            return SceneRead::refused_by(Refusal::NotFound, state);
        };
        let time = times[at];
        SceneRead::found(state, time, fields, at)
    }

    // What a recall applies: the effective time and the position of the scene's fields. The host applies them, then ends the recall.
    pub fn recall_lookup(
        self,
        keys: &[u64],
        times: &[u32],
        fields: &[u8],
        records: &[u64],
        key: SceneKey,
        member: Membership,
        transition: Option<u32>,
    ) -> SceneRead
        requires { sound (table_of self.state keys.now times.now fields.now records.now) ≡ true }
        ensures { let table = table_of self.state keys.now times.now fields.now records.now in
            result ≡ recall_lookup key member transition table }
    {
        let state = self.state;
        if let Err(refusal) = requests::lookup_gate(key, member) {
            return SceneRead::refused_by(refusal, state);
        }
        let n = state.entries;
        let Some(at) = slots::find(keys, n, key.word()) else {
            return SceneRead::refused_by(Refusal::NotFound, state);
        };
        let time = effective_time(transition, times[at]);
        SceneRead::found(state, time, fields, at)
    }

    // The field bytes of the entry at a position, as a part of the lent slice: none past the entries.
    pub fn field_bytes<'a>(
        self,
        keys: &[u64],
        times: &[u32],
        fields: &'a [u8],
        records: &[u64],
        at: usize,
    ) -> &'a [u8]
        requires { sound (table_of self.state keys.now times.now fields.now records.now) ≡ true }
        ensures { let table = table_of self.state keys.now times.now fields.now records.now in
            result.now ≡ field_bytes at table }
    {
        let n = self.state.entries;
        if at < n {
            return slots::field_bytes(fields, at);
        }
        &fields[..0]
    }

    // The remaining capacity, and the scene ids of a group, in table order, in the front of a lent buffer.
    pub fn get_scene_membership(
        self,
        keys: &[u64],
        times: &[u32],
        fields: &[u8],
        records: &[u64],
        ids: &mut [u8],
        key: GroupKey,
        member: Membership,
    ) -> ListRead
        requires { sound (table_of self.state keys.now times.now fields.now records.now) ≡ true }
        ensures { let table = table_of self.state keys.now times.now fields.now records.now in
            listed_of result ids.new ≡ get_scene_membership key member ids.old table }
    {
        let state = self.state;
        if let Err(refusal) = requests::group_gate(key, member) {
            return ListRead::refused_by(refusal, state);
        }
        let n = state.entries;
        let range = KeyRange::Group(key);
        if slots::count_fits(keys, n, range, ids.len()) {
            let len = slots::list_scenes(keys, n, range, ids);
            return ListRead {
                status: Status::SUCCESS,
                remaining: state.remaining_capacity_for_fab(keys, key.fabric),
                len,
                state,
            };
        }
        ListRead::refused_by(Refusal::BufferTooShort, state)
    }

    // The fabric's row of FabricSceneInfo on an endpoint, if it has an entry there or a record.
    pub fn read_fabric_scene_info(
        self,
        keys: &[u64],
        times: &[u32],
        fields: &[u8],
        records: &[u64],
        fabric: u8,
        endpoint: u16,
        single: bool,
    ) -> InfoRead
        requires { sound (table_of self.state keys.now times.now fields.now records.now) ≡ true }
        ensures { let table = table_of self.state keys.now times.now fields.now records.now in
            result ≡ read_fabric_scene_info fabric endpoint single table }
    {
        let state = self.state;
        if let Err(refusal) = requests::info_gate(fabric, single) {
            return InfoRead::refused_by(refusal, state);
        }
        let entries = state.entries;
        let recorded = state.recorded;
        let range = KeyRange::Endpoint(EndpointKey { fabric, endpoint });
        let count = slots::count(keys, entries, range);
        let remaining = state.remaining_capacity_for_fab(keys, fabric);
        let Some(at) = records::find(records, recorded, fabric, endpoint) else {
            if count == 0 {
                return InfoRead::absent(Status::SUCCESS, state);
            }
            return InfoRead::row(count, 0, 0, false, remaining, fabric, state);
        };
        let word = records[at];
        let key = words::key_of_record(word);
        let group = words::group_of(key);
        let scene = words::scene_of(key);
        let valid = words::is_valid(word);
        InfoRead::row(count, group, scene, valid, remaining, fabric, state)
    }
}
