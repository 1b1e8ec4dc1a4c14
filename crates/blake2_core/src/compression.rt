//! The compression function of BLAKE2b (RFC 7693, 3.1 and 3.2), one block of 128 bytes at a time.

ghost use Rattle.std.specs.Prelude.{◌≡◌, ◌*◌, ◌%◌, ◌^◌, ◌<◌};
ghost use Rattle.std.specs.Prelude.{length, slice_index, if◌then◌else◌};
ghost use Rattle.std.specs.Int.{w64, bit_not};
ghost use Rattle.blake2_core.specs.Words.{block_words};
ghost use Rattle.blake2_core.specs.Constants.{initial_vector, word_number};
ghost use Rattle.blake2_core.specs.Compression.{compressed, fold_halves, work_vector};
ghost use Rattle.blake2_core.specs.Mixing.{mixed, mixed_round};

use byte_words::read_word;

// The initialization vector (RFC 7693, 2.6).
pub(crate) const INITIAL_VECTOR: [u64; 8] = [
    0x6a09_e667_f3bc_c908,
    0xbb67_ae85_84ca_a73b,
    0x3c6e_f372_fe94_f82b,
    0xa54f_f53a_5f1d_36f1,
    0x510e_527f_ade6_82d1,
    0x9b05_688c_2b3e_6c1f,
    0x1f83_d9ab_fb41_bd6b,
    0x5be0_cd19_137e_2179,
];

// The message schedule, a row for each of ten rounds (RFC 7693, 2.7).
const SIGMA: [[usize; 16]; 10] = [
    [0, 1, 2, 3, 4, 5, 6, 7, 8, 9, 10, 11, 12, 13, 14, 15],
    [14, 10, 4, 8, 9, 15, 13, 6, 1, 12, 0, 2, 11, 7, 5, 3],
    [11, 8, 12, 0, 5, 2, 15, 13, 10, 14, 3, 6, 7, 1, 9, 4],
    [7, 9, 3, 1, 13, 12, 11, 14, 2, 6, 5, 10, 4, 0, 15, 8],
    [9, 0, 5, 7, 2, 4, 10, 15, 14, 1, 11, 12, 6, 8, 3, 13],
    [2, 12, 6, 10, 0, 11, 8, 3, 4, 13, 7, 5, 15, 14, 1, 9],
    [12, 5, 1, 15, 14, 13, 4, 10, 0, 7, 6, 3, 9, 2, 8, 11],
    [13, 11, 7, 14, 12, 1, 3, 9, 5, 0, 15, 4, 8, 6, 2, 10],
    [6, 15, 14, 9, 11, 3, 0, 8, 12, 2, 13, 7, 1, 4, 10, 5],
    [10, 2, 8, 4, 7, 6, 1, 5, 15, 11, 9, 14, 3, 12, 13, 0],
];

fn words_of(block: &[u8]) -> [u64; 16]
    requires { length block.now ≡ 128 }
    ensures { result ≡ block_words block.now }
{
    [
        read_word(block, 0),
        read_word(block, 1),
        read_word(block, 2),
        read_word(block, 3),
        read_word(block, 4),
        read_word(block, 5),
        read_word(block, 6),
        read_word(block, 7),
        read_word(block, 8),
        read_word(block, 9),
        read_word(block, 10),
        read_word(block, 11),
        read_word(block, 12),
        read_word(block, 13),
        read_word(block, 14),
        read_word(block, 15),
    ]
}

// The message word that a round reads at a turn.
#[inline(always)]
fn word(m: &[u64; 16], round: usize, turn: usize) -> u64
    requires { turn < 16 }
    ensures { result ≡ slice_index m.now (word_number round turn) }
{
    m[SIGMA[round % 10][turn]]
}

#[inline(always)]
fn mix(a: u64, b: u64, c: u64, d: u64, x: u64, y: u64) -> [u64; 4]
    ensures { result ≡ mixed a b c d x y }
{
    let a = a.wrapping_add(b).wrapping_add(x);
    let d = (d ^ a).rotate_right(32);
    let c = c.wrapping_add(d);
    let b = (b ^ c).rotate_right(24);
    let a = a.wrapping_add(b).wrapping_add(y);
    let d = (d ^ a).rotate_right(16);
    let c = c.wrapping_add(d);
    let b = (b ^ c).rotate_right(63);
    [a, b, c, d]
}

// `compress` writes its calls out, so that the numbers of the words are constants.
#[inline(always)]
fn mix_round(m: &[u64; 16], v: [u64; 16], r: usize) -> [u64; 16]
    ensures { result ≡ mixed_round m.now v r }
{
    let [
        v0,
        v1,
        v2,
        v3,
        v4,
        v5,
        v6,
        v7,
        v8,
        v9,
        v10,
        v11,
        v12,
        v13,
        v14,
        v15,
    ] = v;
    let [v0, v4, v8, v12] = mix(v0, v4, v8, v12, word(m, r, 0), word(m, r, 1));
    let [v1, v5, v9, v13] = mix(v1, v5, v9, v13, word(m, r, 2), word(m, r, 3));
    let [v2, v6, v10, v14] = mix(v2, v6, v10, v14, word(m, r, 4), word(m, r, 5));
    let [v3, v7, v11, v15] = mix(v3, v7, v11, v15, word(m, r, 6), word(m, r, 7));
    let [v0, v5, v10, v15] = mix(v0, v5, v10, v15, word(m, r, 8), word(m, r, 9));
    let [v1, v6, v11, v12] = mix(v1, v6, v11, v12, word(m, r, 10), word(m, r, 11));
    let [v2, v7, v8, v13] = mix(v2, v7, v8, v13, word(m, r, 12), word(m, r, 13));
    let [v3, v4, v9, v14] = mix(v3, v4, v9, v14, word(m, r, 14), word(m, r, 15));
    [
        v0, v1, v2, v3, v4, v5, v6, v7, v8, v9, v10, v11, v12, v13, v14, v15,
    ]
}

// The word of the work vector that carries the mark of the last block.
fn mark(last: bool) -> u64
    ensures { result
        ≡ (if last then bit_not w64 (slice_index initial_vector 6) else slice_index initial_vector 6) }
{
    if last {
        !INITIAL_VECTOR[6]
    } else {
        INITIAL_VECTOR[6]
    }
}

fn start(state: &[u64; 8], count: u128, last: bool) -> [u64; 16]
    ensures { result ≡ work_vector state.now count last }
{
    let low = (count % (1 << 64)) as u64;
    let high = (count >> 64) as u64;
    [
        state[0],
        state[1],
        state[2],
        state[3],
        state[4],
        state[5],
        state[6],
        state[7],
        INITIAL_VECTOR[0],
        INITIAL_VECTOR[1],
        INITIAL_VECTOR[2],
        INITIAL_VECTOR[3],
        INITIAL_VECTOR[4] ^ low,
        INITIAL_VECTOR[5] ^ high,
        mark(last),
        INITIAL_VECTOR[7],
    ]
}

fn fold(state: &[u64; 8], v: &[u64; 16]) -> [u64; 8]
    ensures { result ≡ fold_halves state.now v.now }
{
    [
        state[0] ^ v[0] ^ v[8],
        state[1] ^ v[1] ^ v[9],
        state[2] ^ v[2] ^ v[10],
        state[3] ^ v[3] ^ v[11],
        state[4] ^ v[4] ^ v[12],
        state[5] ^ v[5] ^ v[13],
        state[6] ^ v[6] ^ v[14],
        state[7] ^ v[7] ^ v[15],
    ]
}

// Takes a block of 128 bytes into the state. `count` is the number of message bytes up to its end,
// and `last` marks the last block.
pub(crate) fn compress(state: &mut [u64; 8], block: &[u8], count: u128, last: bool)
    requires { length block.now ≡ 128 }
    ensures { state.new ≡ compressed state.old block.now count last }
{
    let m = words_of(block);
    let v = start(state, count, last);
    let v = mix_round(&m, v, 0);
    let v = mix_round(&m, v, 1);
    let v = mix_round(&m, v, 2);
    let v = mix_round(&m, v, 3);
    let v = mix_round(&m, v, 4);
    let v = mix_round(&m, v, 5);
    let v = mix_round(&m, v, 6);
    let v = mix_round(&m, v, 7);
    let v = mix_round(&m, v, 8);
    let v = mix_round(&m, v, 9);
    let v = mix_round(&m, v, 10);
    let v = mix_round(&m, v, 11);
    *state = fold(state, &v);
}
