// The calls of the memberships that are held beside the scenes, for hosts in C or Rust, as those of `host`: numbers stand for enums, and no
// reference comes back. The memberships are a head of their own and a lent slice of words.
#![tactic(auto)]

mod both;
mod change;
mod query;

ghost use Rattle.std.specs.Prelude.{◌≡◌};
ghost use Rattle.groups.specs.Groups.{groups_of, with_held, groups_sound, read_group, joined_of, join_group};

use groups::{GroupRead, GroupsOutcome, GroupsState};
use words::GroupKey;

// The head of no memberships.
#[unsafe(no_mangle)]
pub extern "C" fn scenes_groups_new() -> GroupsState
    ensures { result ≡ with_held 0 }
{
    GroupsState::new()
}

// Whether the memberships are sound. Where they are not, every call that is lent them answers 6.
#[unsafe(no_mangle)]
pub extern "C" fn scenes_groups_is_sound(groups: GroupsState, words: &[u64]) -> bool
    ensures { result ≡ groups_sound (groups_of groups words.now) }
{
    groups.is_sound(words)
}

// Joins a group: the membership is taken up behind the last one, unless it is held.
#[unsafe(no_mangle)]
pub extern "C" fn scenes_join(
    groups: GroupsState,
    words: &mut [u64],
    key: GroupKey,
) -> GroupsOutcome
    ensures { joined_of result.status (groups_of result.state words.new) ≡ join_group key (groups_of groups words.old) }
{
    groups.join(words, key)
}

// Whether a membership is held: no for group 0.
#[unsafe(no_mangle)]
pub extern "C" fn scenes_is_member(groups: GroupsState, words: &[u64], key: GroupKey) -> GroupRead
    ensures { result ≡ read_group key (groups_of groups words.now) }
{
    groups.read(words, key)
}
