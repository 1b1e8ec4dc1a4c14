//! A caller of `mount_shared` that has a mount of its own.

ghost use Rattle.std.specs.Prelude.{◌≡◌, IfSome};
ghost use Rattle.call_history.specs.Entries.{entry};
ghost use Rattle.fsc_keys.specs.Keys.{key_id_of};
ghost use Rattle.user_claims.specs.Claims.{no_claims, with_claim, without_claim};
ghost use Rattle.mount_model.specs.declared.call.Op.TheVariants.{KeyStatus};
ghost use Rattle.mount_model.specs.declared.reply.Reply.TheVariants.{Done, Opened};
ghost use Rattle.mount_model.specs.ClaimHistory.{claims_after_entry};
ghost use Rattle.mount_model.specs.ClaimReplies.{ReportsClaims};
ghost use Rattle.mount_shared.specs.KeyReports.{AbsentHoldsNothing};

use mount_model::{Bytes, Call, KeyId, Op, Part, Path, Reply};
use mount_shared::Mount;
use policy_ctx::{Pad, Policy, Unit, encode_policy};
use std::alloc::Global;
use turn_lock::Machine;

/// A mount, a key whose claim was removed, and the mount's reply on the key's status then.
#[derive(Drop)]
pub struct Locked {
    pub mount: Mount,
    pub id: KeyId,
    pub status: Reply,
}

/// Writes a file into an encrypted directory of a new mount, removes the only claim on the key, and asks
/// for the key's status. Returns `None` if there is no memory, or a reply isn't the expected one.
pub fn write_and_lock(alloc: Global, raw: &[u8], nonces: &[[u8; 16]; 3]) -> Option<Locked>
    ensures id { IfSome result (λ l. l.id ≡ key_id_of raw.now) }
    ensures claims { IfSome result (λ l. l.mount.state.ring.claims ≡ no_claims) }
    ensures reported { IfSome result (λ l. ReportsClaims no_claims 1000 (KeyStatus l.id) l.status) }
    ensures gone { IfSome result (λ l. AbsentHoldsNothing l.mount.state (KeyStatus l.id) l.status) }
{
    let mut mount = Mount::new(alloc).ok()?;
    let (id, status) = write_in(alloc, &mut mount, raw, nonces)?;
    Some(Locked { mount, id, status })
}

// The same in a mount that is passed by reference: returns the key's identifier, and the mount's reply on
// its status.
fn write_in(
    alloc: Global,
    mount: &mut Mount,
    raw: &[u8],
    nonces: &[[u8; 16]; 3],
) -> Option<(KeyId, Reply)>
    ensures id { IfSome result (λ r. r.0 ≡ key_id_of raw.now) }
    ensures claims { IfSome result (λ r. mount.new.state.ring.claims
        ≡ without_claim (with_claim mount.old.state.ring.claims r.0 1000) r.0 1000) }
    ensures reported { IfSome result (λ r. ReportsClaims mount.new.state.ring.claims 1000 (KeyStatus r.0) r.1) }
    ensures absent { IfSome result (λ r. AbsentHoldsNothing mount.new.state (KeyStatus r.0) r.1) }
{
    let id = fill(alloc, mount, raw, nonces)?;
    let reply = lock(mount, id)?;
    Some((id, reply))
}

// Adds the key, makes the directory and the file under it, and returns the key's identifier.
fn fill(alloc: Global, mount: &mut Mount, raw: &[u8], nonces: &[[u8; 16]; 3]) -> Option<KeyId>
    ensures id { IfSome result (λ id. id ≡ key_id_of raw.now) }
    ensures claims { IfSome result (λ id. mount.new.state.ring.claims
        ≡ with_claim mount.old.state.ring.claims id 1000) }
{
    let id = add(mount, bytes(alloc, raw)?)?;
    let dir = below(alloc, Path::root(alloc), b"e")?;
    encrypt(alloc, mount, id, &dir, nonces)?;
    write(alloc, mount, &below(alloc, dir, b"f")?, nonces[2])?;
    Some(id)
}

// Removes the claim on the key, and asks for its status.
fn lock(mount: &mut Mount, id: KeyId) -> Option<Reply>
    ensures claims { IfSome result (λ _. mount.new.state.ring.claims
        ≡ without_claim mount.old.state.ring.claims id 1000) }
    ensures reported { IfSome result
        (λ reply. ReportsClaims mount.new.state.ring.claims 1000 (KeyStatus id) reply) }
    ensures absent { IfSome result (λ reply. AbsentHoldsNothing mount.new.state (KeyStatus id) reply) }
{
    let Reply::Removed { .. } = ask(mount, Op::RemoveKey { id })? else {
        return None;
    };
    ask(mount, Op::KeyStatus { id })
}

// Adds the key, and returns its identifier.
fn add(mount: &mut Mount, raw: Bytes) -> Option<KeyId>
    ensures id { IfSome result (λ id. id ≡ key_id_of raw) }
    ensures claims { IfSome result (λ id. mount.new.state.ring.claims
        ≡ with_claim mount.old.state.ring.claims id 1000) }
{
    match ask(mount, Op::AddKey { raw })? {
        Reply::Added(id) => Some(id),
        _ => None,
    }
}

// Makes the directory, and encrypts it under the key of this identifier.
fn encrypt(
    alloc: Global,
    mount: &mut Mount,
    id: KeyId,
    dir: &Path,
    nonces: &[[u8; 16]; 3],
) -> Option<()>
    ensures claims { IfSome result (λ _. mount.new.state.ring.claims ≡ mount.old.state.ring.claims) }
{
    let (path, nonce) = (dir.copy(alloc).ok()?, nonces[0]);
    done(ask(mount, Op::Mkdir { path, nonce })?)?;
    let (path, nonce) = (dir.copy(alloc).ok()?, nonces[1]);
    let policy = encode_policy(&policy_of(id));
    let encrypted = Op::SetPolicy {
        path,
        policy,
        nonce,
    };
    done(ask(mount, encrypted)?)
}

// Makes the file and writes it, through a handle that is closed again.
fn write(alloc: Global, mount: &mut Mount, file: &Path, nonce: [u8; 16]) -> Option<()>
    ensures claims { IfSome result (λ _. mount.new.state.ring.claims ≡ mount.old.state.ring.claims) }
{
    let path = file.copy(alloc).ok()?;
    done(ask(mount, Op::Create { path, nonce })?)?;
    let path = file.copy(alloc).ok()?;
    let handle = opened(ask(mount, Op::OpenNode { path })?)?;
    let (offset, bytes) = (0, bytes(alloc, b"hi")?);
    let written = Op::Write {
        handle,
        offset,
        bytes,
    };
    done(ask(mount, written)?)?;
    done(ask(mount, Op::Close { handle })?)
}

// Names are padded to 32 bytes, and contents are divided into blocks.
fn policy_of(id: KeyId) -> Policy {
    Policy {
        pad: Pad::P32,
        unit: Unit::Block,
        by_mode: false,
        id,
    }
}

// The mount's reply to user 1000, or `None` if the call may not be asked.
fn ask(mount: &mut Mount, op: Op) -> Option<Reply>
    ensures claims { IfSome result (λ reply. mount.new.state.ring.claims ≡ claims_after_entry
        mount.old.state.ring.claims (entry 0 (record { uid = 1000; op = op }) reply)) }
    ensures reported { IfSome result (λ reply. ReportsClaims mount.old.state.ring.claims 1000 op reply) }
    ensures absent { IfSome result (λ reply. AbsentHoldsNothing mount.new.state op reply) }
{
    let call = Call { uid: 1000, op };
    if !call.fits() {
        return None;
    }
    let lent = mount.answer(0, &call);
    Some(Mount::finish(lent))
}

// `Some` if the reply is that the call is done.
fn done(reply: Reply) -> Option<()>
    ensures { IfSome result (λ _. reply ≡ Done) }
{
    match reply {
        Reply::Done => Some(()),
        _ => None,
    }
}

// The handle, if one was opened.
fn opened(reply: Reply) -> Option<u32>
    ensures { IfSome result (λ handle. reply ≡ Opened handle) }
{
    match reply {
        Reply::Opened(handle) => Some(handle),
        _ => None,
    }
}

// A copy of the bytes.
fn bytes(alloc: Global, of: &[u8]) -> Option<Bytes>
    ensures { IfSome result (λ copy. copy ≡ of.now) }
{
    let copy = Vec::from_slice(alloc, of).ok()?;
    Some(Bytes::from_vec(copy))
}

// The path with one part more.
fn below(alloc: Global, path: Path, name: &[u8]) -> Option<Path> {
    let mut path = path;
    path.push(Part::new(bytes(alloc, name)?)).ok()?;
    Some(path)
}
