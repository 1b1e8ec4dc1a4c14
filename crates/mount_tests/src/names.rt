//! Calls on names.

use crate::encrypted_dir::looked_up;
use crate::on_a_mount::{Trial, try_on_a_mount};
use crate::paths::{part, path_in, path_of};
use crate::reply_values::{is_done, is_refused};
use mount_model::{NodeKind, Path, Refusal, Reply};
use mount_names::{create, get_policy, mkdir, read_link, stat};
use mount_state::MountState;
use name_crypt::Steps;
use std::alloc::Global;
use std::process::Abort;
use std::sync::ledger::Ledger;

#[test]
fn a_mount_has_its_root_and_what_is_made_in_it(rt: HostRuntime) {
    try_on_a_mount(&rt, rt.alloc(), Trial::AskANewMount);
}

pub(crate) fn ask_a_new_mount<L: Ledger, A: Abort>(
    rt: &A,
    alloc: Global,
    state: &mut MountState,
    steps: &mut Steps<L>,
) {
    ask_of_the_root(rt, alloc, state, steps);
    make_a_directory(rt, alloc, state, steps);
    make_a_file(rt, alloc, state, steps);
}

// Whether the reply is the status of an empty node that is not encrypted, and whose key is not absent.
fn is_plain(told: Reply, kind: NodeKind, node: u32) -> bool {
    matches!(
        told,
        Reply::Stat {
            kind: its_kind,
            node: its_node,
            size: 0,
            encrypted: false,
            keyed: true,
        } if its_kind == kind && its_node == node
    )
}

fn ask_of_the_root<L: Ledger, A: Abort>(
    rt: &A,
    alloc: Global,
    state: &mut MountState,
    steps: &mut Steps<L>,
) {
    let root = Path::root(alloc);
    ask_at_the_root(rt, alloc, state, &root, steps);
    let part = part(alloc, b"letter").expect(rt, "memory");
    assert!(rt; looked_up(alloc, state, 0, &part, steps).is_none());
}

fn ask_at_the_root<L: Ledger, A: Abort>(
    rt: &A,
    alloc: Global,
    state: &mut MountState,
    root: &Path,
    steps: &mut Steps<L>,
) {
    assert!(rt; is_plain(stat(alloc, state, root, steps), NodeKind::Dir, 0));
    assert!(rt; is_refused(get_policy(alloc, state, root, steps), Refusal::NoData));
    assert!(rt; is_refused(read_link(alloc, state, root, steps), Refusal::Inval));
}

fn make_a_directory<L: Ledger, A: Abort>(
    rt: &A,
    alloc: Global,
    state: &mut MountState,
    steps: &mut Steps<L>,
) {
    let letters = path_of(alloc, b"letters").expect(rt, "memory");
    assert!(rt; is_done(mkdir(alloc, state, &letters, &[7; 16], steps)));
    assert!(rt;
        is_refused(
            create(alloc, state, &letters, &[8; 16], steps),
            Refusal::Exists
        )
    );
}

fn make_a_file<L: Ledger, A: Abort>(
    rt: &A,
    alloc: Global,
    state: &mut MountState,
    steps: &mut Steps<L>,
) {
    let file = path_in(alloc, b"letters", b"letter").expect(rt, "memory");
    assert!(rt; is_done(create(alloc, state, &file, &[9; 16], steps)));
    assert!(rt; is_plain(stat(alloc, state, &file, steps), NodeKind::File, 2));
}
