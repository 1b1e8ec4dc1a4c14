//! Blocks of 1,024 bytes, and the function that makes a block of two (RFC 9106, 3.5 and 3.6).

ghost use Rattle.std.specs.Prelude.{◌≡◌, ◌<◌};
ghost use Rattle.argon_kdf.specs.Permutation.{mixed, permuted, product_sum};
ghost use Rattle.argon_kdf.specs.Blocks.{joined, row, row_permuted, permuted_rows, transposed, xored};

// 1,024 bytes, as words.
pub(crate) type Block = [u64; 128];

// A block has this many words.
pub(crate) const BLOCK_WORDS: usize = 128;

// The block of zeros.
pub(crate) const ZERO_BLOCK: Block = [0; BLOCK_WORDS];

fn write_xor(block: &mut Block, x: &Block, y: &Block)
    ensures { block.new ≡ xored x.now y.now }
{
    'words: for i in 0..BLOCK_WORDS {
        block[i] = x[i] ^ y[i];
    }
}

// Xors a block into another, word by word.
pub(crate) fn xor_into(block: &mut Block, other: &Block)
    ensures { block.new ≡ xored block.old other.now }
{
    'words: for i in 0..BLOCK_WORDS {
        block[i] = block[i] ^ other[i];
    }
}

// Adds the product to each of the two by subtracting its complement. If the product were doubled as a
// number, LLVM would double a factor first, and multiply 33 bits by 32: a whole call would take an eighth
// more time.
#[inline(always)]
fn multiply_add(a: u64, b: u64) -> u64
    ensures { result ≡ product_sum a b }
{
    let complement = !((a % (1 << 32)) * (b % (1 << 32)));
    a.wrapping_sub(complement)
        .wrapping_add(b.wrapping_sub(complement))
        .wrapping_sub(2)
}

#[inline(always)]
fn mix(a: u64, b: u64, c: u64, d: u64) -> [u64; 4]
    ensures { result ≡ mixed a b c d }
{
    let a = multiply_add(a, b);
    let d = (d ^ a).rotate_right(32);
    let c = multiply_add(c, d);
    let b = (b ^ c).rotate_right(24);
    let a = multiply_add(a, b);
    let d = (d ^ a).rotate_right(16);
    let c = multiply_add(c, d);
    let b = (b ^ c).rotate_right(63);
    [a, b, c, d]
}

#[inline(always)]
fn permute(v: [u64; 16]) -> [u64; 16]
    ensures { result ≡ permuted v }
{
    let [
        v0,
        v1,
        v2,
        v3,
        v4,
        v5,
        v6,
        v7,
        v8,
        v9,
        v10,
        v11,
        v12,
        v13,
        v14,
        v15,
    ] = v;
    let [v0, v4, v8, v12] = mix(v0, v4, v8, v12);
    let [v1, v5, v9, v13] = mix(v1, v5, v9, v13);
    let [v2, v6, v10, v14] = mix(v2, v6, v10, v14);
    let [v3, v7, v11, v15] = mix(v3, v7, v11, v15);
    let [v0, v5, v10, v15] = mix(v0, v5, v10, v15);
    let [v1, v6, v11, v12] = mix(v1, v6, v11, v12);
    let [v2, v7, v8, v13] = mix(v2, v7, v8, v13);
    let [v3, v4, v9, v14] = mix(v3, v4, v9, v14);
    [
        v0, v1, v2, v3, v4, v5, v6, v7, v8, v9, v10, v11, v12, v13, v14, v15,
    ]
}

#[inline(always)]
fn row_of(block: &Block, i: usize) -> [u64; 16]
    requires { i < 8 }
    ensures { result ≡ row block.now i }
{
    let at = 16 * i;
    [
        block[at],
        block[at + 1],
        block[at + 2],
        block[at + 3],
        block[at + 4],
        block[at + 5],
        block[at + 6],
        block[at + 7],
        block[at + 8],
        block[at + 9],
        block[at + 10],
        block[at + 11],
        block[at + 12],
        block[at + 13],
        block[at + 14],
        block[at + 15],
    ]
}

// The words of the registers of a column.
#[inline(always)]
fn column_of(block: &Block, i: usize) -> [u64; 16]
    requires { i < 8 }
    ensures { result ≡ row (transposed block.now) i }
{
    let at = 2 * i;
    [
        block[at],
        block[at + 1],
        block[at + 16],
        block[at + 17],
        block[at + 32],
        block[at + 33],
        block[at + 48],
        block[at + 49],
        block[at + 64],
        block[at + 65],
        block[at + 80],
        block[at + 81],
        block[at + 96],
        block[at + 97],
        block[at + 112],
        block[at + 113],
    ]
}

#[inline(always)]
fn permute_row(block: &mut Block, i: usize)
    requires { i < 8 }
    ensures { block.new ≡ row_permuted block.old i }
{
    let at = 16 * i;
    let v = permute(row_of(block, i));
    block[at] = v[0];
    block[at + 1] = v[1];
    block[at + 2] = v[2];
    block[at + 3] = v[3];
    block[at + 4] = v[4];
    block[at + 5] = v[5];
    block[at + 6] = v[6];
    block[at + 7] = v[7];
    block[at + 8] = v[8];
    block[at + 9] = v[9];
    block[at + 10] = v[10];
    block[at + 11] = v[11];
    block[at + 12] = v[12];
    block[at + 13] = v[13];
    block[at + 14] = v[14];
    block[at + 15] = v[15];
}

#[inline(always)]
fn permute_column(block: &mut Block, i: usize)
    requires { i < 8 }
    ensures { transposed block.new ≡ row_permuted (transposed block.old) i }
{
    let at = 2 * i;
    let v = permute(column_of(block, i));
    block[at] = v[0];
    block[at + 1] = v[1];
    block[at + 16] = v[2];
    block[at + 17] = v[3];
    block[at + 32] = v[4];
    block[at + 33] = v[5];
    block[at + 48] = v[6];
    block[at + 49] = v[7];
    block[at + 64] = v[8];
    block[at + 65] = v[9];
    block[at + 80] = v[10];
    block[at + 81] = v[11];
    block[at + 96] = v[12];
    block[at + 97] = v[13];
    block[at + 112] = v[14];
    block[at + 113] = v[15];
}

#[inline(always)]
fn permute_rows(block: &mut Block)
    ensures { block.new ≡ permuted_rows block.old }
{
    'rows: for i in 0..8 {
        permute_row(block, i);
    }
}

#[inline(always)]
fn permute_columns(block: &mut Block)
    ensures { block.new ≡ transposed (permuted_rows (transposed block.old)) }
{
    'columns: for i in 0..8 {
        permute_column(block, i);
    }
}

// G: writes the block that `x` and `y` make. It stays out of line, so that its loops are compiled on their
// own, whatever the caller.
#[inline(never)]
pub(crate) fn join(block: &mut Block, x: &Block, y: &Block)
    ensures { block.new ≡ joined x.now y.now }
{
    write_xor(block, x, y);
    let sum = *block;
    permute_rows(block);
    permute_columns(block);
    xor_into(block, &sum);
}
