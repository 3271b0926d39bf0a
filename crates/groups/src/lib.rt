// The memberships that are held beside the scenes: fabric, endpoint and group, at most 256, as words in a lent slice of their own.
#![tactic(auto)]

ghost use Rattle.std.specs.Prelude.{◌≡◌, ◌≤◌, length, false};
ghost use Rattle.words.specs.Refusals.{number_of, status_of};
ghost use Rattle.groups.specs.Groups.{groups_of, with_held, group_word, group_sound, groups_sound, is_member, member_of, read_group, joined_of, join_gate, join_group, retain_groups};

use requests::Membership;
use words::{GroupKey, KeyRange, KeyWord, Limits, Refusal, SceneId, SceneKey, Status};

// How many memberships are held.
#[repr(C)]
#[derive(Clone, Copy)]
pub struct GroupsState {
    pub held: usize,
}

// What a join answers, with the head after it.
#[repr(C)]
#[derive(Clone, Copy)]
pub struct GroupsOutcome {
    pub status: u8,
    pub state: GroupsState,
}

// What a yes or no answers that is asked for by itself.
#[repr(C)]
#[derive(Clone, Copy)]
pub struct GroupRead {
    pub status: u8,
    pub held: bool,
}

impl GroupsOutcome {
    fn answered(status: u8, state: GroupsState) -> GroupsOutcome
        ensures { result ≡ record { status = status; state = state } }
    {
        GroupsOutcome { status, state }
    }

    // A refusal: the head stays.
    fn refused(refusal: Refusal, state: GroupsState) -> GroupsOutcome
        ensures { result ≡ record { status = number_of refusal; state = state } }
    {
        GroupsOutcome::answered(u8::from(refusal), state)
    }
}

impl GroupRead {
    // A refusal says nothing of what is held.
    fn refused(refusal: Refusal) -> GroupRead
        ensures { result ≡ record { status = number_of refusal; held = false } }
    {
        GroupRead {
            status: u8::from(refusal),
            held: false,
        }
    }
}

// The word of a membership: the key word of its group, with scene 0.
pub fn word(key: GroupKey) -> u64
    ensures { result ≡ group_word key }
{
    SceneKey {
        fabric: key.fabric,
        endpoint: key.endpoint,
        group: key.group,
        scene: SceneId::GLOBAL_SCENE_ID,
    }
    .word()
}

// Whether a word is in range: below 2^48, with a fabric from 1 to 255 and scene 0.
pub fn is_word(word: u64) -> bool
    ensures { result ≡ group_sound word }
{
    (word < KeyWord::VALID)
        & (1 <= words::fabric_of(word))
        & (words::scene_of(word) == SceneId::GLOBAL_SCENE_ID)
}

impl GroupsState {
    // No memberships.
    pub fn new() -> GroupsState
        ensures { result ≡ with_held 0 }
    {
        GroupsState { held: 0 }
    }

    // Whether the memberships are sound. Without a branch: `all` ends at the first that is not, but then the words are taken one by one, in twice
    // the time.
    pub fn is_sound(self, words: &[u64]) -> bool
        ensures { result ≡ groups_sound (groups_of self words.now) }
    {
        if Limits::MAX_MEMBERSHIPS < self.held {
            return false;
        }
        if words.len() < Limits::MAX_MEMBERSHIPS {
            return false;
        }
        let mut sound = true;
        for word in &words[..self.held] {
            sound = sound & is_word(*word);
        }
        sound
    }

    // Whether a membership is held: no for group 0. Without a branch: `contains` takes 199 ns in place of 48 where 256 are held, 13 in place of 7
    // where 16 are.
    pub fn is_member(self, words: &[u64], key: GroupKey) -> bool
        requires { self.held ≤ length words.now }
        ensures { result ≡ is_member key (groups_of self words.now) }
    {
        let wanted = word(key);
        let mut any = false;
        for word in &words[..self.held] {
            any = any | (*word == wanted);
        }
        (key.group != 0) & any
    }

    // The same as an input of a command.
    pub fn member(self, words: &[u64], key: GroupKey) -> Membership
        requires { self.held ≤ length words.now }
        ensures { result ≡ member_of key (groups_of self words.now) }
    {
        if self.is_member(words, key) {
            return Membership::Yes;
        }
        Membership::No
    }

    // A yes or no that is asked for by itself.
    pub fn read(self, words: &[u64], key: GroupKey) -> GroupRead
        ensures { result ≡ read_group key (groups_of self words.now) }
    {
        if !self.is_sound(words) {
            return GroupRead::refused(Refusal::Unsound);
        }
        if let Err(refusal) = requests::fabric_gate(key.fabric) {
            return GroupRead::refused(refusal);
        }
        GroupRead {
            status: Status::SUCCESS,
            held: self.is_member(words, key),
        }
    }

    // The tests of a join.
    #[tactic(auto, using(requests::proofs::Laws::first_refusals), unfolding(crate::specs::Groups::join_gate))]
    fn join_gate(self, words: &[u64], key: GroupKey) -> Result<(), Refusal>
        ensures { status_of result ≡ join_gate key (groups_of self words.now) }
    {
        if !self.is_sound(words) {
            return Err(Refusal::Unsound);
        }
        requests::fabric_gate(key.fabric)?;
        if key.group == 0 {
            return Err(Refusal::ConstraintError);
        }
        Ok(())
    }

    // Takes a membership up behind the last one, unless it is held.
    pub fn join(mut self, words: &mut [u64], key: GroupKey) -> GroupsOutcome
        ensures { joined_of result.status (groups_of result.state words.new) ≡ join_group key (groups_of self words.old) }
    {
        if let Err(refusal) = self.join_gate(words, key) {
            return GroupsOutcome::refused(refusal, self);
        }
        if self.is_member(words, key) {
            return GroupsOutcome::answered(Status::SUCCESS, self);
        }
        if self.held == Limits::MAX_MEMBERSHIPS {
            return GroupsOutcome::refused(Refusal::MembershipsFull, self);
        }
        let held = self.held;
        words[held] = word(key);
        self.held = held + 1;
        GroupsOutcome::answered(Status::SUCCESS, self)
    }

    // Drops every membership in a range: the others move to the front, in order.
    pub fn retain(mut self, words: &mut [u64], range: KeyRange) -> GroupsState
        requires { self.held ≤ length words.old }
        ensures { groups_of result words.new ≡ retain_groups range (groups_of self words.old) }
    {
        let held = self.held;
        let mut j = 0;
        for i in 0..held {
            let word = words[i];
            if !range.holds(word) {
                words[j] = word;
                j += 1;
            }
        }
        self.held = j;
        self
    }
}
