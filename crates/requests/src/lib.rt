// What a request alone decides: nothing, or its first refusal.
#![tactic(auto, using(crate::proofs::Laws::first_refusals), unfolding(crate::specs::Requests::add_gate, crate::specs::Requests::store_gate, crate::specs::Requests::lookup_gate, crate::specs::Requests::group_gate, crate::specs::Requests::copy_gate, crate::specs::Requests::info_gate))]

ghost use Rattle.std.specs.Prelude.{◌≡◌};
ghost use Rattle.words.specs.Refusals.{status_of};
ghost use Rattle.requests.specs.Requests.{membership_of, fabric_gate, scene_gate, time_gate, member_gate, source_gate, target_gate, pair_gate, pairs_gate, fields_gate, capture_gate, whole_group, copied_gate, add_gate, store_gate, lookup_gate, group_gate, copy_gate, info_gate};

use words::{GroupKey, Limits, Pair, Refusal, SceneId, SceneKey};

// What the host's group table says of a group. It is looked at where a command consults it.
#[derive(Clone, Copy)]
pub enum Membership {
    Yes,
    No,
    Failed,
}

// The host's answer on a group as a number: 1 is yes, 0 is no, and any other number that it could not tell.
impl From<u8> for Membership {
    ghost from_gives = { λ answer member. member ≡ membership_of answer };

    #[tactic(auto, unfolding(crate::specs::Requests::membership_of))]
    fn from(answer: u8) -> Membership {
        match answer {
            0 => Membership::No,
            1 => Membership::Yes,
            _ => Membership::Failed,
        }
    }
}

// A group and a scene in it.
#[repr(C)]
#[derive(Clone, Copy)]
pub struct GroupScene {
    pub group: u16,
    pub scene: u8,
}

// What a copy asks for. Bit 0 of the mode means the whole group.
#[repr(C)]
#[derive(Clone, Copy)]
pub struct CopyRequest {
    pub fabric: u8,
    pub endpoint: u16,
    pub mode: u8,
    pub from: GroupScene,
    pub to: GroupScene,
}

// Fabric 0 is none.
pub fn fabric_gate(fabric: u8) -> Result<(), Refusal>
    ensures { status_of result ≡ fabric_gate fabric }
{
    if fabric == 0 {
        return Err(Refusal::NoFabric);
    }
    Ok(())
}

// Reserved scene ids.
fn scene_gate(scene: u8) -> Result<(), Refusal>
    ensures { status_of result ≡ scene_gate scene }
{
    match scene {
        SceneId::GLOBAL_SCENE_ID | SceneId::RESERVED_SCENE_ID => Err(Refusal::ConstraintError),
        _ => Ok(()),
    }
}

// The longest transition time.
fn time_gate(time: u32) -> Result<(), Refusal>
    ensures { status_of result ≡ time_gate time }
{
    if Limits::MAX_TRANSITION_TIME_MS < time {
        return Err(Refusal::ConstraintError);
    }
    Ok(())
}

// Whether the fabric's endpoint is in a group. Group 0 needs no answer.
#[tactic(auto, unfolding(crate::specs::Requests::member_gate))]
fn member_gate(group: u16, member: Membership) -> Result<(), Refusal>
    ensures { status_of result ≡ member_gate group member }
{
    if group == 0 {
        return Ok(());
    }
    match member {
        Membership::Yes => Ok(()),
        Membership::No => Err(Refusal::InvalidCommand),
        Membership::Failed => Err(Refusal::MembershipFailed),
    }
}

// A group that a command reads or removes from.
fn source_gate(group: u16, member: Membership) -> Result<(), Refusal>
    ensures { status_of result ≡ source_gate group member }
{
    member_gate(group, member)
}

// A group that a command writes to.
fn target_gate(group: u16, member: Membership) -> Result<(), Refusal>
    ensures { status_of result ≡ target_gate group member }
{
    member_gate(group, member)
}

// What a pair byte says.
fn pair_gate(pair: u8) -> Result<(), Refusal>
    ensures { status_of result ≡ pair_gate pair }
{
    if pair == Pair::NOT_SCENABLE {
        return Err(Refusal::InvalidCommand);
    }
    if Pair::CLUSTER_UNKNOWN < pair {
        return Err(Refusal::BadPair);
    }
    Ok(())
}

// The first pair byte other than 1 and 2 decides.
#[tactic(auto, using(crate::proofs::Laws::pair_refusals))]
fn pairs_gate(pairs: &[u8]) -> Result<(), Refusal>
    ensures { status_of result ≡ pairs_gate pairs.now }
{
    for pair in pairs {
        pair_gate(*pair)?;
    }
    Ok(())
}

// Fields that are longer than the limit.
fn fields_gate(limit: usize, len: usize) -> Result<(), Refusal>
    ensures { status_of result ≡ fields_gate limit len }
{
    if limit < len {
        return Err(Refusal::InsufficientSpace);
    }
    Ok(())
}

// Captured bytes that are longer than the limit with the byte that is appended.
fn capture_gate(limit: usize, len: usize) -> Result<(), Refusal>
    ensures { status_of result ≡ capture_gate limit len }
{
    if limit <= len {
        return Err(Refusal::CaptureTooLong);
    }
    Ok(())
}

// Whether a copy is of the whole group.
pub fn is_whole_group(mode: u8) -> bool
    ensures { result ≡ whole_group mode }
{
    mode % 2 == 1
}

// A scene id of a copy, which is not examined in a copy of the whole group.
fn copied_gate(mode: u8, scene: u8) -> Result<(), Refusal>
    ensures { status_of result ≡ copied_gate mode scene }
{
    if is_whole_group(mode) {
        return Ok(());
    }
    scene_gate(scene)
}

// The tests of an add. Its pairs are looked at only if no earlier test refuses.
pub fn add_gate(
    key: SceneKey,
    time: u32,
    member: Membership,
    pairs: &[u8],
    limit: usize,
    len: usize,
) -> Result<(), Refusal>
    ensures { status_of result ≡ add_gate key time member pairs.now limit len }
{
    fabric_gate(key.fabric)?;
    scene_gate(key.scene)?;
    time_gate(time)?;
    target_gate(key.group, member)?;
    pairs_gate(pairs)?;
    fields_gate(limit, len)
}

// The tests of a store.
pub fn store_gate(
    key: SceneKey,
    member: Membership,
    limit: usize,
    len: usize,
) -> Result<(), Refusal>
    ensures { status_of result ≡ store_gate key member limit len }
{
    fabric_gate(key.fabric)?;
    scene_gate(key.scene)?;
    target_gate(key.group, member)?;
    capture_gate(limit, len)
}

// The tests of a view, a remove and a recall.
pub fn lookup_gate(key: SceneKey, member: Membership) -> Result<(), Refusal>
    ensures { status_of result ≡ lookup_gate key member }
{
    let SceneKey {
        fabric,
        group,
        scene,
        ..
    } = key;
    fabric_gate(fabric)?;
    scene_gate(scene)?;
    source_gate(group, member)
}

// The tests of a remove all and of a membership read.
pub fn group_gate(key: GroupKey, member: Membership) -> Result<(), Refusal>
    ensures { status_of result ≡ group_gate key member }
{
    fabric_gate(key.fabric)?;
    source_gate(key.group, member)
}

// The tests of a copy: the target group's answer counts only after a yes to the source group's.
pub fn copy_gate(c: CopyRequest, source: Membership, target: Membership) -> Result<(), Refusal>
    ensures { status_of result ≡ copy_gate c source target }
{
    let from = c.from;
    let to = c.to;
    fabric_gate(c.fabric)?;
    copied_gate(c.mode, from.scene)?;
    copied_gate(c.mode, to.scene)?;
    source_gate(from.group, source)?;
    target_gate(to.group, target)
}

// The tests of an info read.
pub fn info_gate(fabric: u8, single: bool) -> Result<(), Refusal>
    ensures { status_of result ≡ info_gate fabric single }
{
    fabric_gate(fabric)?;
    if single {
        return Err(Refusal::SingleElement);
    }
    Ok(())
}
