//! Stored blocks of files that a Linux kernel made.

use policy_ctx::Unit;

/// A block of a file, and the SHA-256 of the block as the kernel stored it.
pub struct Stored {
    /// The file's contents key, or the mode key.
    pub key: &'static str,
    /// The inode's number under a mode key, otherwise 0.
    pub inode: u32,
    pub unit: Unit,
    /// Byte q of the file is (131 q + 29 (q / 256) + seed) modulo 256.
    pub size: u64,
    pub seed: u64,
    pub block: u64,
    pub sha256: &'static str,
}

// Keys of single files, which HKDF-SHA512 derives from the master key 00 to 3f and the files' nonces:
// ab01d93dec201643a492a2ae0ff2f281, 7b9f8d7296695fbcacd4340a064835d9, ec675c89bde4a3d29efbc8d8305eef99,
// 9ba8c48eb2cbbc778fb3b7a470b6e51f, 2e6cc439e42c1da00e6865d3c18ecd77, 8fe38d877faa31bcfbbdb70d0a4960e8.
const SHORT_KEY: &str = "112a5e0e2c607edb93265fa0e2c96c29e672089742dd5b49be90a5d80afe9f39\
     3ceadcf04567d114183394f0ae164fb1c432be78407e3a56750808448b7de83b";

const LONG_KEY: &str = "06763ea339a31cb9060a7283dbcef93973d076fd0f9b77bd551207a573682711\
     2a697145534154c7684a64720dbcfffbdd31899adcc0dec9150c64b09d40bed6";

const KEY_512: &str = "edc43bbd4aa562bd040ff10bd6f2d1cc0a1883baa8464e9ea8d4ab9d08c09914\
     48da82f949d80c64c166d5610e8bf072d9641b1fb51c7d1c6ebebfd958b2affc";

const KEY_1024: &str = "df3c2f3d7fb9c5bca3ee9fc986388083a9da756e1256e8f001c3318e076fbb24\
     55f7748cff3cfd5e4b392415ee124ba26d3577fbec11af86bfb05841eca4654e";

const KEY_2048: &str = "535d38f6165e9988e6e2866fd88a5983e62fe0460bb85111d9dd606155f9d8b4\
     876913f21307a5f0be13c30809edcdf892eb62dd99d2b6b40fa61272f401b3ec";

const KEY_4096: &str = "d0d61febfac227e7ac05e4ab83ebbaa66a9d58424c435f295b783596b1f9cd24\
     9e9ef18e2c44a5e36886405b777bd3c06f12050fa7e2c5ef3735efdcc21eb000";

// The mode key for contents of the same master key, on a filesystem with the UUID fsc-memory-mount.
const MODE_KEY: &str = "9c621e403c192295d98e7fc9eedc07eecb1381239e734a752102ce4617295eaf\
     0cc48e789014e0bae5a67af6097aac1beaa57fcd07cccbfd8247b9e90d2b515b";

/// The first four of Linux 6.1, the others of Linux 6.12.
pub static STORED: [Stored; 18] = [
    Stored {
        key: SHORT_KEY,
        inode: 0,
        unit: Unit::Block,
        size: 4096,
        seed: 3,
        block: 0,
        sha256: "c89440465c1d9c924ab125f324d2c75a00f1f03b51ca18a0c51b8e44de3d9d3f",
    },
    Stored {
        key: LONG_KEY,
        inode: 0,
        unit: Unit::Block,
        size: 9192,
        seed: 1,
        block: 0,
        sha256: "0cfaece68d4a087e75fcc8474dfb782b0daafb574f0fce352f7d095e74191124",
    },
    Stored {
        key: LONG_KEY,
        inode: 0,
        unit: Unit::Block,
        size: 9192,
        seed: 1,
        block: 1,
        sha256: "417b8e57c00a640dda462639f795eff4c3daef3d3f9c295f0d0965d22834d46d",
    },
    Stored {
        key: LONG_KEY,
        inode: 0,
        unit: Unit::Block,
        size: 9192,
        seed: 1,
        block: 2,
        sha256: "f9806de1a479e9b21a9d4e8d72d3025b9897be3d01640bfb4bc988ae819af6f4",
    },
    Stored {
        key: MODE_KEY,
        inode: 56,
        unit: Unit::Block,
        size: 9192,
        seed: 1,
        block: 0,
        sha256: "a35686ad42f28826c08926851ed6bb7a6e488a78d4133193241c02a2025283b7",
    },
    Stored {
        key: MODE_KEY,
        inode: 56,
        unit: Unit::Block,
        size: 9192,
        seed: 1,
        block: 1,
        sha256: "4ace3c852820fbdfc321eaa6bce738a744204baf227d4bb8efbe459a9eb13205",
    },
    Stored {
        key: MODE_KEY,
        inode: 116,
        unit: Unit::U512,
        size: 9192,
        seed: 1,
        block: 0,
        sha256: "9d2a840add58767cac9621a569edc84887cf27c1269432b507f75a9cfd0fff1d",
    },
    Stored {
        key: MODE_KEY,
        inode: 116,
        unit: Unit::U512,
        size: 9192,
        seed: 1,
        block: 1,
        sha256: "137dd371f4402d6c17a71427a35df315daf63a2b04b83aec219326897aec0d49",
    },
    Stored {
        key: MODE_KEY,
        inode: 146,
        unit: Unit::U2048,
        size: 9192,
        seed: 1,
        block: 0,
        sha256: "c336ab60e41129241c41cd01b79b5a8c59155e5038140fc90b6ed565a7f90200",
    },
    Stored {
        key: MODE_KEY,
        inode: 146,
        unit: Unit::U2048,
        size: 9192,
        seed: 1,
        block: 1,
        sha256: "05736576e71db8b6fcea306547054e04967e8c7dde5649748e1c5949453ab054",
    },
    Stored {
        key: KEY_512,
        inode: 0,
        unit: Unit::U512,
        size: 9192,
        seed: 1,
        block: 0,
        sha256: "e92b5cec4dd44473982420ef375a96a83a280a7aca624787bca199a9fc06a3d6",
    },
    Stored {
        key: KEY_512,
        inode: 0,
        unit: Unit::U512,
        size: 9192,
        seed: 1,
        block: 1,
        sha256: "2d222f41dbfe2bc1c771134bc90455d64b6b4b1ded3234fe79bf47bb7505ddc1",
    },
    Stored {
        key: KEY_1024,
        inode: 0,
        unit: Unit::U1024,
        size: 9192,
        seed: 1,
        block: 0,
        sha256: "e172dfa3459ee1f8affb3acd20ce0c7807ffcdcdde1f2dd06962f38c0360726c",
    },
    Stored {
        key: KEY_1024,
        inode: 0,
        unit: Unit::U1024,
        size: 9192,
        seed: 1,
        block: 1,
        sha256: "c44fa78ee39b37c88ae69d33832e6687aa8f41fa2129359e5bdb21a2a4d66489",
    },
    Stored {
        key: KEY_2048,
        inode: 0,
        unit: Unit::U2048,
        size: 9192,
        seed: 1,
        block: 0,
        sha256: "69a56b7780fa56e2147df6040a23d4366f3114960f05cdcbaca7300c008faa72",
    },
    Stored {
        key: KEY_2048,
        inode: 0,
        unit: Unit::U2048,
        size: 9192,
        seed: 1,
        block: 1,
        sha256: "42e3793172afa443157b7af1e186a600136da0ffc9b41ac964e313bcef44d372",
    },
    Stored {
        key: KEY_4096,
        inode: 0,
        unit: Unit::U4096,
        size: 9192,
        seed: 1,
        block: 0,
        sha256: "3aaa7d40f1e576782e3debbdce68aa6675c6bf4be6563e177ee82be5e8dbbc39",
    },
    Stored {
        key: KEY_4096,
        inode: 0,
        unit: Unit::U4096,
        size: 9192,
        seed: 1,
        block: 1,
        sha256: "b294bfd342056648b38857f103a3bcb546a759025caa5b35deb11a0156bc0bba",
    },
];
