// The calls that take a command's membership from the memberships that are held, and those that change scenes and memberships together. Each
// tests the memberships, answers 6 if they are not sound, and makes the outward call of the same name otherwise.
#![tactic(auto)]

mod both;
mod change;
mod query;

ghost use Rattle.std.specs.Prelude.{◌≡◌};
ghost use Rattle.asking.specs.Asking.{group_of_scene};

use groups::GroupsState;
use state::ScenesState;
use words::{GroupKey, SceneKey};

// The heads of a scene table and of memberships about which nothing is known. A call hands the head of the table back, and that of the
// memberships where it may change them.
#[derive(Clone, Copy)]
pub struct AskingHandler {
    pub state: ScenesState,
    pub groups: GroupsState,
}

// What a call answers that may change both.
#[repr(C)]
#[derive(Clone, Copy)]
pub struct BothOutcome {
    pub state: ScenesState,
    pub groups: GroupsState,
    pub status: u8,
    pub save: bool,
}

// The group of a scene.
pub(crate) fn group_of_scene(key: SceneKey) -> GroupKey
    ensures { result ≡ group_of_scene key }
{
    GroupKey {
        fabric: key.fabric,
        endpoint: key.endpoint,
        group: key.group,
    }
}
