//! What commands derive from a seed, and the names that stars mean.

ghost use Rattle.std.specs.Prelude.{◌≤◌, length};

use crate::runs::{Instead, as_it_is, log_of};
use crate::texts::{expect_same, same_bytes};
use item_list::Bytes;
use mount_model::{NameList, Reply};
use session_records::{Purpose, draw};
use std::alloc::{AllocError, Global};
use std::process::Abort;

// A caller, a command, a purpose, and the bytes that are derived for them.
type DerivationRow = (u8, u64, Purpose, &'static str);

// What Python's hmac and hashlib derive from 32 zeros.
static DRAWN_FROM_ZEROS: [DerivationRow; 5] = [
    (
        0,
        0,
        Purpose::NonceOrKey,
        "5f1e8d5fe33ddabd2f4835479fee20dbd8da57d49abf021f7bff5ea431fdae49\
         7058ed9784555d82f1044ad0062a4d6693ab198a909da9ad90f47f0f694d2db9",
    ),
    (
        0,
        0,
        Purpose::Iv,
        "32d8181f6ab843f83537a3438f40b3204e3ba0b89c901565c9e5ca35e56f9af1\
         7c89d441399abaca14d9126c4b9b859389f3286196a3e3c64aee87080d6f9cb5",
    ),
    (
        0,
        0,
        Purpose::Salt,
        "675befcfbf97f33a9c785c61e0cacd87974315f5a67484dacc6246279b0b9432\
         c45e1e29381de4c89dee09011b127bd403a30909465ea5e3838efd12a7957a25",
    ),
    (
        0,
        1,
        Purpose::NonceOrKey,
        "3028da3f8a808b52077b909eb29c51523da32ef1f46a9af7d14eb4bbdfcfee01\
         bc3524979b43735681187cbc4f2df8471e0897c99db194afed567df95c346304",
    ),
    (
        1,
        0,
        Purpose::NonceOrKey,
        "da99867768e6b2137209e264b0c7929688a0f35fe60cbfe951b183f98ef352cd\
         a5e71eb70a87a54f36b6ec686a1de7a619a0b59256da7435bf9192be0462f2ce",
    ),
];

// And from the bytes 00 to 1f.
static DRAWN_FROM_COUNTING: [DerivationRow; 2] = [
    (
        7,
        4_294_967_295,
        Purpose::Salt,
        "8cd7c8342bdd01bb1d5839421d0e6624e75533aaeae6c58e819a3c840b7eda56\
         b8bec886c2a93a1052d75da883ef211e4b704daaff84727e48a5796c86c2d1d2",
    ),
    (
        255,
        19_999,
        Purpose::Iv,
        "b2c7e6f6211be34929a3a4dbeb92ebdda0e187367d5eabcf88e72729285bee3d\
         b77df9c0ceb2f29a2946804fd66179190feb7939e9d1c169007d36abeb7be1d2",
    ),
];

// Returns what is derived for the row, in hexadecimal: as many bytes as the buffer has, at most 64.
fn drawn(
    alloc: Global,
    seed: &[u8; 32],
    row: &DerivationRow,
    room: &mut [u8],
) -> Result<String, AllocError>
    requires { length room.old ≤ 64 }
{
    draw(seed, row.0, row.1, row.2, room);
    hex::encode(alloc, room)
}

// Expects these bytes for each row, whole and by 16 bytes.
fn expect_drawn<A: Abort>(rt: &A, alloc: Global, seed: &[u8; 32], rows: &[DerivationRow]) {
    for row in rows {
        expect_same(rt, drawn(alloc, seed, row, &mut [0; 64]), row.3, "64 bytes");
        let nonce = drawn(alloc, seed, row, &mut [0; 16]).expect(rt, "an answer");
        assert!(rt; row.3.starts_with(nonce.as_str()));
    }
}

#[test]
fn draws_are_those_of_python(rt: HostRuntime) {
    expect_drawn(&rt, rt.alloc(), &[0; 32], &DRAWN_FROM_ZEROS);
    let mut counting = [0; 32];
    for i in 0..32 {
        counting[i] = i as u8;
    }
    expect_drawn(&rt, rt.alloc(), &counting, &DRAWN_FROM_COUNTING);
}

// The names of a listing, of which the second can't be a part.
fn listed_names(alloc: Global) -> Result<NameList, AllocError> {
    let mut names = NameList::new(alloc);
    for name in &["a b", ".."] {
        names.push(Bytes::from_vec(Vec::from_slice(alloc, name.as_bytes())?))?;
    }
    Ok(names)
}

const STARRED: &str = "caller 0\nmkdir /e\nlist /e\nstat /n\nstat /e/*0/*1/*2/%2A0\n";

const STARRED_LOG: &[u8] = b"0 0 0 mkdir /e = ok\n\
    1 0 0 list /e 0 = names 2 more=0 a%20b ..\n\
    2 0 0 stat /n = refused not-found\n\
    3 0 0 stat /e/a%20b/%2A1/%2A2/%2A0 = refused not-found\n";

// A star means the name of its number, or its own text if there is none or it can't be a part. No mount
// lists a name that can't be one.
#[test]
fn stars_mean_listed_names(rt: HostRuntime) {
    let names = listed_names(rt.alloc()).expect(&rt, "memory");
    let listing = Instead {
        at: 1,
        reply: Some(Reply::Names { names, more: false }),
    };
    let log = log_of(&rt, rt.alloc(), "replay", STARRED, listing, as_it_is()).1;
    same_bytes(&rt, log.as_slice(), STARRED_LOG, "the log");
}
