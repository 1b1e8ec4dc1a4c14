//! What a state is made of. This function does nothing: its contract is the law.

ghost use Rattle.std.specs.Prelude.{◌≡◌};
ghost use Rattle.mount_state.specs.SameBut.{IsSame};
ghost use Rattle.mount_state.specs.declared.state.MountState.{MountState};

/// A state is its parts, and nothing else: two states of which no part differs are one. So a new part has
/// to be listed among those that stay, and no further key is held.
pub fn a_state_is_its_parts()
    ensures { (old new : MountState) → IsSame old new → new ≡ old }
{}
