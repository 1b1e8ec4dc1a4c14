//! Laws of calls on two mounts: each is an empty function whose contract is the law.

ghost use Rattle.std.specs.Prelude.{List};
ghost use Rattle.mount_model.specs.Port.{PlacedCalls};
ghost use Rattle.mount_links.specs.declared.step.LinkStep.{LinkStep};
ghost use Rattle.mount_links.specs.StepsOfReplies.{StepsAreOfReplies};
ghost use Rattle.mount_links.specs.ShownParts.{ShowsBoth};

/// Of the shown form of a caller's calls, `split` makes the shown form of the calls on both mounts.
pub fn logged_histories_are_of_the_calls()
    ensures { (steps : List LinkStep) (calls : PlacedCalls) → ShowsBoth steps calls }
{}

/// The replies to a caller's call on two mounts determine its step.
pub fn steps_are_of_replies()
    ensures { StepsAreOfReplies }
{}
