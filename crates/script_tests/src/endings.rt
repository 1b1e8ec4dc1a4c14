//! How runs end: their statuses, and sources, sinks and seeds that fail.

use crate::runs::{BY_4096, Calls, Outside, SEED, as_it_is, run_of};
use crate::texts::{same, same_bytes};
use fsc_outside::FixedSeed;
use fsc_tool::Status;
use std::alloc::Global;
use std::process::Abort;

// The numbers and lines that the documents promise.
static STATUSES: [(Status, u8, &str); 9] = [
    (Status::Done, 0, ""),
    (Status::Refused { place: 27 }, 1, "fsc: refused at 27"),
    (Status::Usage, 2, "fsc: usage"),
    (Status::BadLine { line: 20_001 }, 3, "fsc: bad line 20001"),
    (Status::ReadFault, 4, "fsc: read fault"),
    (Status::WriteFault, 5, "fsc: write fault"),
    (Status::SeedFault, 6, "fsc: seed fault"),
    (Status::TooLong, 7, "fsc: input too long"),
    (Status::NoMemory, 8, "fsc: no memory"),
];

#[test]
fn each_status_has_its_number_and_its_line(rt: HostRuntime) {
    for (status, number, line) in &STATUSES {
        assert!(rt; status.number() == *number, "{line}");
        let text = format!(in rt.alloc(); "{status}").expect(&rt, "an answer");
        same(&rt, text.as_str(), line, line);
    }
}

// The arguments, the script, the read and the write that fail, how the run ends, and what it writes.
type FaultRow = (
    &'static [&'static str],
    &'static str,
    Option<u32>,
    Option<u32>,
    Status,
    &'static str,
);

const SEEDED: &[&str] = &["replay", "--serial", "--seed", SEED];

const SEEDLESS: &[&str] = &["replay", "--serial"];

// A seed that is a digit short.
const SHORT: &str = "000000000000000000000000000000000000000000000000000000000000000";

const ADDING: &str =
    "caller 1000\nadd-key 0707070707070707070707070707070707070707070707070707070707070707\n";

const ADDED: &str = "0 0 1000 add-key 32 = added 1101420d499290b005fc681527257159\n";

const NOBODY: &str = "# nobody calls\n";

// Each fault ends the run with its own status, in the order of the steps. The seed source fails at each
// call, but is asked only if the arguments give no seed and the input is a script.
static FAULTS: [FaultRow; 10] = [
    (SEEDED, ADDING, None, None, Status::Done, ADDED),
    (SEEDED, ADDING, Some(1), None, Status::ReadFault, ""),
    (
        SEEDED,
        ADDING,
        None,
        Some(1),
        Status::WriteFault,
        "0 0 1000 a",
    ),
    (
        &["replay", "--serial", "--seed", SHORT],
        ADDING,
        None,
        None,
        Status::Usage,
        "",
    ),
    (SEEDLESS, ADDING, None, None, Status::SeedFault, ""),
    (SEEDLESS, NOBODY, None, None, Status::SeedFault, ""),
    (SEEDED, NOBODY, None, Some(0), Status::Done, ""),
    (SEEDLESS, ADDING, None, Some(0), Status::SeedFault, ""),
    (SEEDLESS, ADDING, Some(1), None, Status::ReadFault, ""),
    (
        SEEDLESS,
        "caller 1\nadd-key 7\n",
        None,
        None,
        Status::BadLine { line: 2 },
        "",
    ),
];

// Runs the row. A read returns 40 bytes, and a write takes ten.
fn run_of_row<A: Abort>(rt: &A, alloc: Global, row: &FaultRow) -> (Status, Vec<u8>) {
    let outside = Outside {
        script: row.1,
        reads: Calls {
            piece: 40,
            fails: row.2,
        },
        writes: Calls {
            piece: 10,
            fails: row.3,
        },
        seeds: FixedSeed::failing(),
    };
    run_of(rt, alloc, row.0, outside, as_it_is(), as_it_is())
}

#[test]
fn a_fault_outside_is_told(rt: HostRuntime) {
    for row in &FAULTS {
        let (status, got) = run_of_row(&rt, rt.alloc(), row);
        assert!(rt; status == row.4, "{}", row.1);
        same_bytes(&rt, got.as_slice(), row.5.as_bytes(), row.1);
    }
}

const ASKING: &str = "caller 3\nkey-status id:00000000000000000000000000000000\n";

const ASKED: &[u8] =
    b"0 0 3 key-status 00000000000000000000000000000000 = status absent self=0 users=0\n";

// A seed source that gives a seed serves the form without one.
#[test]
fn the_seed_source_gives_the_seed(rt: HostRuntime) {
    let outside = Outside {
        script: ASKING,
        reads: BY_4096,
        writes: BY_4096,
        seeds: FixedSeed::new([7; 32]),
    };
    let (status, got) = run_of(&rt, rt.alloc(), SEEDLESS, outside, as_it_is(), as_it_is());
    assert!(rt; status == Status::Done);
    same_bytes(&rt, got.as_slice(), ASKED, "the log");
}

// A key that is added, asked for and removed.
const FIRST: &str = "\
caller 1000
add-key 000102030405060708090a0b0c0d0e0f101112131415161718191a1b1c1d1e1f\
202122232425262728292a2b2c2d2e2f303132333435363738393a3b3c3d3e3f
key-status id:8699c2c53707405da5aba5ae4d8583c0
remove-key id:8699c2c53707405da5aba5ae4d8583c0
key-status id:8699c2c53707405da5aba5ae4d8583c0
";

// Its log, with the identifier that Linux gave to the key.
const FIRST_LOG: &str = "\
0 0 1000 add-key 64 = added 8699c2c53707405da5aba5ae4d8583c0
1 0 1000 key-status 8699c2c53707405da5aba5ae4d8583c0 = status present self=1 users=1
2 0 1000 remove-key 8699c2c53707405da5aba5ae4d8583c0 = removed others=0 busy=0
3 0 1000 key-status 8699c2c53707405da5aba5ae4d8583c0 = status absent self=0 users=0
";

// Runs that script, if these calls fail. A read returns seven bytes, and a write takes sixteen.
fn first_run<A: Abort>(
    rt: &A,
    alloc: Global,
    read: Option<u32>,
    write: Option<u32>,
) -> (Status, Vec<u8>) {
    let outside = Outside {
        script: FIRST,
        reads: Calls {
            piece: 7,
            fails: read,
        },
        writes: Calls {
            piece: 16,
            fails: write,
        },
        seeds: FixedSeed::failing(),
    };
    run_of(rt, alloc, SEEDED, outside, as_it_is(), as_it_is())
}

// How often that run reads and writes: a last read finds nothing left.
const READS: u32 = 43;

const WRITES: u32 = 20;

// Returns whether a run whose read of this number fails ends with that status, and nothing is written.
fn is_a_read_fault<A: Abort>(rt: &A, alloc: Global, number: u32) -> bool {
    let (status, got) = first_run(rt, alloc, Some(number), None);
    status == Status::ReadFault && got.is_empty()
}

// Returns whether a run whose write of this number fails ends with that status, and exactly the writes
// before it arrived.
fn is_a_write_fault<A: Abort>(rt: &A, alloc: Global, number: u32) -> bool {
    let (status, got) = first_run(rt, alloc, None, Some(number));
    let is_cut = got.len() == 16 * number as usize && FIRST_LOG.as_bytes().starts_with(&got);
    status == Status::WriteFault && is_cut
}

#[test]
fn each_read_and_each_write_fails_in_turn(rt: HostRuntime) {
    for number in 0..READS {
        assert!(rt; is_a_read_fault(&rt, rt.alloc(), number), "read {number}");
    }
    for number in 0..WRITES {
        assert!(rt; is_a_write_fault(&rt, rt.alloc(), number), "write {number}");
    }
    let (status, got) = first_run(&rt, rt.alloc(), Some(READS), Some(WRITES));
    assert!(rt; status == Status::Done);
    same_bytes(&rt, got.as_slice(), FIRST_LOG.as_bytes(), "the log");
}
