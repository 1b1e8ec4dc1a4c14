//! Laws of the mount and of its histories: each is an empty function whose contract is the law.

ghost use Rattle.std.specs.Prelude.{◌≡◌, ℕ, true, false, ◌++◌};
ghost use Rattle.mount_model.specs.PlainMount.{PlainMount, empty_mount};
ghost use Rattle.mount_model.specs.Step.{IsMountStep, takes_memory};
ghost use Rattle.mount_model.specs.History.{History, IsLegal, NeverOutOfMemory, calls_of, mount_after};
ghost use Rattle.mount_model.specs.ClaimHistory.{claims_after, is_refused};
ghost use Rattle.mount_model.specs.Fits.{Fits};
ghost use Rattle.mount_model.specs.Lawful.{KeysAgree, KeyAgrees, AllFit, IsLawful};
ghost use Rattle.mount_model.specs.WellFormed.{IsWellFormed};
ghost use Rattle.mount_model.specs.NameLaws.{PoliciesAreInherited, TextsDiffer};
ghost use Rattle.mount_model.specs.NameLaws.{VisibleNamesResolve, OnlyVisibleNamesResolve};
ghost use Rattle.mount_model.specs.PolicyLaws.{PoliciesAreReadBack};
ghost use Rattle.mount_model.specs.OrderLaws.{HandlesHoldNodeKeys, CreationsNeedTheKey};
ghost use Rattle.mount_model.specs.OrderLaws.{OnlyEmptyOnesAreEncrypted};
ghost use Rattle.mount_model.specs.LockedNodes.{KeysOrHandlesKeyNodes, LockedNodesShowTexts};
ghost use Rattle.mount_model.specs.ContentLaws.{WrittenIsRead};
ghost use Rattle.mount_model.specs.LimitLaws.{LimitsAreExact, FurtherNamesFollow};
ghost use Rattle.mount_model.specs.KeyLaws.{OtherClaimsStay, OpenHandlesKeepKeys, OpenHandlesAreReported};

use super::{Call, Refusal, Reply};

/// The calls of a legal history determine the whole history if no reply is out of memory.
pub fn calls_determine_replies()
    ensures { (g h : History) → IsLegal g → IsLegal h → NeverOutOfMemory g → NeverOutOfMemory h
        → calls_of g ≡ calls_of h → g ≡ h }
{}

/// A refused call changes nothing.
pub fn refusals_change_nothing()
    ensures { (m : PlainMount) (caller : ℕ) (call : Call) (refusal : Refusal) (after : PlainMount)
        → IsMountStep m caller call (Reply.Refused refusal) after → after ≡ m }
{}

/// Only calls that may take memory can be out of memory. Removing keys, a status, closing and dropping
/// caches never are.
pub fn some_calls_take_no_memory()
    ensures { (m : PlainMount) (caller : ℕ) (call : Call) (after : PlainMount)
        → IsMountStep m caller call (Reply.Refused Refusal.NoMemory) after → takes_memory call.op ≡ true }
{}

/// The claims of the mount that a legal history leaves follow from its entries alone: from each call with
/// its caller, and from which calls were refused.
pub fn claims_come_from_calls()
    ensures { (history : History) → IsLegal history → (mount_after history).claims ≡ claims_after history }
{}

/// The empty mount is well formed, and a step from a well-formed mount leaves one, for every call that
/// fits. A raw key that the call adds must be the one that was added under its identifier before, if
/// there is one.
pub fn steps_leave_well_formed_mounts()
    ensures first { IsWellFormed empty_mount }
    ensures step { (m : PlainMount) (caller : ℕ) (call : Call) (reply : Reply) (after : PlainMount)
        → IsWellFormed m → Fits call → (is_refused reply ≡ false → KeyAgrees m.raws call.op)
        → IsMountStep m caller call reply after → IsWellFormed after }
{}

/// The mount that a legal history leaves is well formed, if its calls fit and its raw keys agree.
pub fn mounts_are_well_formed()
    ensures { (history : History) → AllFit history → KeysAgree history → IsLegal history
        → IsWellFormed (mount_after history) }
{}

/// A legal history is lawful, and so is each beginning of a lawful history.
pub fn legal_histories_are_lawful()
    ensures legal { (history : History) → IsLegal history → IsLawful history }
    ensures begun { (begun rest : History) → IsLawful (begun ++ rest) → IsLawful begun }
{}

/// In a well-formed mount an entry of an encrypted directory has that directory's policy, and two names
/// of it have two no-key texts. The shown form of a name, itself or its text, resolves to exactly the
/// node that the name names. A part resolves to nothing else.
pub fn visible_names_resolve()
    ensures inherited { PoliciesAreInherited }
    ensures apart { TextsDiffer }
    ensures lead { VisibleNamesResolve }
    ensures only { OnlyVisibleNamesResolve }
{}

/// A removal by one user leaves every other claim. Without a claim a key is Incomplete exactly when
/// something open still needs it. So no status is Absent while something does.
pub fn removals_leave_other_claims()
    ensures others { OtherClaimsStay }
    ensures state { OpenHandlesKeepKeys }
    ensures told { OpenHandlesAreReported }
{}

/// A node is keyed while a handle is open on it. If the key isn't present, a creation is NoKey before it
/// is Exists. A policy for a directory with entries is NotEmpty before it is NoKey.
pub fn refusals_come_in_their_order()
    ensures keyed { HandlesHoldNodeKeys }
    ensures create { CreationsNeedTheKey }
    ensures encrypt { OnlyEmptyOnesAreEncrypted }
{}

/// Of a node that isn't keyed a listing shows no-key texts alone, opening is NoKey, and a symlink shows
/// the text of its target. A node under a policy is keyed exactly if its policy's key is present or a
/// handle is open on it.
pub fn locked_nodes_show_texts()
    ensures shown { LockedNodesShowTexts }
    ensures keyed { KeysOrHandlesKeyNodes }
{}

/// Contents that were written are read back, whatever calls are made between, a lock and an unlock too,
/// as long as none of them writes to the file.
pub fn written_contents_are_read()
    ensures { WrittenIsRead }
{}

/// The bytes of a policy spell that policy: it is the one that `policy_ctx` decodes.
pub fn policies_are_read_back()
    ensures { PoliciesAreReadBack }
{}

/// The limits of handles, targets and names of records are exact: the last one passes, the next one
/// doesn't.
pub fn limits_are_exact()
    ensures { LimitsAreExact }
{}

/// A page of names reports further names exactly when the next page is not empty.
pub fn further_names_follow()
    ensures { FurtherNamesFollow }
{}
