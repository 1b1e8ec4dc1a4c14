//! Bytes that Linux 6.12 made on an ext4 file system whose UUID is `fsc-memory-mount`, under policies
//! with flag 8 (IV_INO_LBLK_64), read off its calls and the disk's image.

use policy_ctx::Pad;

/// A name in the directory of this inode: as it was made, as it was stored, and as it was listed after
/// the key was removed.
pub struct StoredByMode {
    pub directory: u32,
    pub pad: Pad,
    pub plain: &'static str,
    pub stored: &'static str,
    pub listed: &'static str,
}

/// A symlink with this inode: its target, and how it was stored, without the two bytes of its length.
pub struct TargetByMode {
    pub link: u32,
    pub pad: Pad,
    pub plain: &'static str,
    pub stored: &'static str,
}

pub static NAMES_BY_MODE: [StoredByMode; 9] = [
    StoredByMode {
        directory: 31,
        pad: Pad::P32,
        plain: "2b",
        stored: "efb409aa4e371714d727e492773ef8331adac6f8defeaa55888e0f51014fc3e0",
        listed: "AAAAAAAAAADvtAmqTjcXFNcn5JJ3PvgzGtrG-N7-qlWIjg9RAU_D4A",
    },
    StoredByMode {
        directory: 31,
        pad: Pad::P32,
        plain: "635f6761705f696e5f626c6f636b",
        stored: "fd34f99ad2e62f635d8c8002c72e9f1e5e40e4bfca755db75480538b771ffe00",
        listed: "AAAAAAAAAAD9NPma0uYvY12MgALHLp8eXkDkv8p1XbdUgFOLdx_-AA",
    },
    StoredByMode {
        directory: 31,
        pad: Pad::P32,
        plain: "79352d676e753138636a7179352d676e753138636a7179352d676e753138636a7179352d676e753138636a7179352d67\
            6e753138636a7179352d676e753138636a7179352d676e753138636a7179352d676e753138636a7179352d676e753138\
            636a7179352d676e753138636a7179352d676e753138636a7179352d676e753138636a7179352d676e753138636a7179\
            352d676e753138636a7179352d676e753138636a7179352d676e753138636a7179352d676e753138636a7179352d676e\
            753138636a7179352d676e753138636a7179352d676e753138636a7179352d676e753138636a7179352d676e75313863\
            6a7179352d676e753138636a717935",
        stored: "d36d58e6bd34be0868d1ea1c8d46d80057a3ddfd65296f062ba9de7e2e3b424243f43d8d4d2b0da57fc0110dc2c3350f\
            83e6afd7033f6e16fc82212f6444a7718674bde9d319a18526507b4adf5aca03aff2f7a5a121f87cf38fe8aed2b8b604\
            8add748af8bc0f18c66034c622d9189c501cc259df3dbcda48d9ac51aa39f0fa8adf862de1c44f49220d9b051bbbfcab\
            ed18699accb8d2030bc7d6e92fd264b8e366339e1838237190abd2caafd2ac3f4dbd375992979826c1855cedb5e8480a\
            e78688dbb2678262ffe03d9e719d4e651d4b2e3f0f2396fb3fdd19fac3f3e5070ab6a850acc64e071e6c3b7fb9657d36\
            083b34d95b612c7b59bd5be557ec22",
        listed: "AAAAAAAAAADTbVjmvTS-CGjR6hyNRtgAV6Pd_WUpbwYrqd5-LjtCQkP0PY1NKw2lf8ARDcLDNQ-D5q_XAz9uFvyCIS9kRKdx\
            hnS96dMZoYUmUHtK31rKA6_y96WhIfh884_ortK4tgSK3XSK-LwPGMZgNMYi2RicUBzCWd89vNpI2axRqjnw-orfhi3hxE9J\
            Ig2bBRu7_KvtGGmazH6YrZ-aobVdTR7BG9YhEh9t9XIKsDx_zYR3tFA7IsTb",
    },
    StoredByMode {
        directory: 62,
        pad: Pad::P32,
        plain: "2b",
        stored: "8203500c408ac4da0a553c047c9c427f1407bca9ec3d8a883eda7f38dd533c10",
        listed: "AAAAAAAAAACCA1AMQIrE2gpVPAR8nEJ_FAe8qew9iog-2n843VM8EA",
    },
    StoredByMode {
        directory: 62,
        pad: Pad::P32,
        plain: "fffe017f20806279746573",
        stored: "a971f65e0ebbf8de4ebb74fff134e55e7b4deb0bc4d29385b777650dae944355",
        listed: "AAAAAAAAAACpcfZeDrv43k67dP_xNOVee03rC8TSk4W3d2UNrpRDVQ",
    },
    StoredByMode {
        directory: 62,
        pad: Pad::P32,
        plain: "79352d676e753138636a7179352d676e753138636a7179352d676e753138636a7179352d676e753138636a7179352d67\
            6e753138636a7179352d676e753138636a7179352d676e753138636a7179352d676e753138636a7179352d676e753138\
            636a7179352d676e753138636a7179352d676e753138636a7179352d676e753138636a7179352d676e753138636a7179\
            352d676e753138636a7179352d676e753138636a7179352d676e753138636a7179352d676e753138636a7179352d676e\
            753138636a7179352d676e753138636a7179352d676e753138636a7179352d676e753138636a7179352d676e75313863\
            6a7179352d676e753138636a717935",
        stored: "ecca11a3fbd8e54f403c4e0de936f1d8fe9180cac2ab066bfc26bc14cc2acd3f88268e85e1e4ba3454758a4eaad97c0a\
            d95e6d8955c8bed18b799bb14a24567f977e8b8936ce100b32cb26f28d0a62bca22cbd158900026ca97630d28117a958\
            e2426326b7a1f4c843e968fe0f0e24120fda68decfa804dbb59884e176a139f716321dcdc9ce53f15fa5d7a5b43d8eae\
            f6342599cd9a3ce17c63086d45bfc4f960dff947368eb66bed54d9ae6b707230c83c9bfc4308a54df2ad4f35a3cdd48b\
            7727e78ccdcec73810fa84bee69282a63bc281e85e0dc2fad36bdc19c3d289ba223a9648bfb8821b948ea319c1dd7f73\
            7681648fcdc5868d3410937efa71de",
        listed: "AAAAAAAAAADsyhGj-9jlT0A8Tg3pNvHY_pGAysKrBmv8JrwUzCrNP4gmjoXh5Lo0VHWKTqrZfArZXm2JVci-0Yt5m7FKJFZ_\
            l36LiTbOEAsyyybyjQpivKIsvRWJAAJsqXYw0oEXqVjiQmMmt6H0yEPpaP4PDiQSD9po3s-oBNu1mIThdqE59xYyHc3JzlPx\
            X6XXpbQ9jq72NCWZzYBd6JK3WEWgu8NKXe6FuI7evBbj0jGwWIL1YmBTgXNN",
    },
    StoredByMode {
        directory: 74,
        pad: Pad::P4,
        plain: "2b",
        stored: "8646977459332ee173725db5a958bf34",
        listed: "AAAAAAAAAACGRpd0WTMu4XNyXbWpWL80",
    },
    StoredByMode {
        directory: 74,
        pad: Pad::P4,
        plain: "6a7178345f666d743037626a7178345f",
        stored: "c7e9fa0d531ffe873ae694499e5457a6",
        listed: "AAAAAAAAAADH6foNUx_-hzrmlEmeVFem",
    },
    StoredByMode {
        directory: 74,
        pad: Pad::P4,
        plain: "79352d676e753138636a7179352d676e753138636a7179352d676e753138636a7179352d676e753138636a7179352d67\
            6e753138636a7179352d676e753138636a7179352d676e753138636a7179352d676e753138636a7179352d676e753138\
            636a7179352d676e753138636a7179352d676e753138636a7179352d676e753138636a7179352d676e753138636a7179\
            352d676e753138636a7179352d676e753138636a7179352d676e753138636a7179352d676e753138636a7179352d676e\
            753138636a7179352d676e753138636a7179352d676e753138636a7179352d676e753138636a7179352d676e75313863\
            6a7179352d676e753138636a717935",
        stored: "335185c076ae8b396775c6403132893d8a8e64919feba33ffec3e8480634e944581b63b5bdbb8e4710367f92376a3a9e\
            36c8cf1949deff8b8ac61283684e989005b366a63df8d065cd0f57d8f2fd7628fcb20137da55af1d8ccf0e6358567176\
            8a4b052a3dbf735fec37de9998b632bb56cea2ba6231a929d974069add7d10d8df51e848daaf5e0f6430cbfac9ed38b3\
            8fa9bf522da702827769cf16cf72e7a36833f34a90db7a26a95ef1de2a161853780639df678b4c23cfe65ecdf628adcb\
            d6b4bec6b21157279684f3a4ef66616b5f8330d30c22039756a1f86ac80dd83d780d610df5067fc55270c7746cc160c5\
            6e29bf1c4a610b1403a88796c75531",
        listed: "AAAAAAAAAAAzUYXAdq6LOWd1xkAxMok9io5kkZ_roz_-w-hIBjTpRFgbY7W9u45HEDZ_kjdqOp42yM8ZSd7_i4rGEoNoTpiQ\
            BbNmpj340GXND1fY8v12KPyyATfaVa8djM8OY1hWcXaKSwUqPb9zX-w33pmYtjK7Vs6iumIxqSnZdAaa3X0Q2N9R6Ejar14P\
            ZDDL-sntOLOPqb9SLbjj_EkiilvwBde4NaVvrMkRJAp4i02NktVr2uZsI30S",
    },
];

pub static TARGETS_BY_MODE: [TargetByMode; 3] = [
    TargetByMode {
        link: 49,
        pad: Pad::P32,
        plain: "78",
        stored: "fc2f0d15b11cc5d7a3e6f7d9fdf7ac8cc7c898d02bcd56b3620bc2d8834208ed",
    },
    TargetByMode {
        link: 70,
        pad: Pad::P32,
        plain: "6f763239646b7279352d676f76323964",
        stored: "43c2460cf51d371fa4d8e76484b4a50437fd3eaec3120da3ce45eeaa86c33b5b",
    },
    TargetByMode {
        link: 92,
        pad: Pad::P4,
        plain: "78",
        stored: "a97d66728d66f22310b176c72e0695aa",
    },
];

/// The bytes of policies that the kernel took.
pub static POLICIES: [&str; 8] = [
    "02010403090000008699c2c53707405da5aba5ae4d8583c0",
    "020104030a0000008699c2c53707405da5aba5ae4d8583c0",
    "020104030b0000008699c2c53707405da5aba5ae4d8583c0",
    "020104030c0000008699c2c53707405da5aba5ae4d8583c0",
    "02010408000000008699c2c53707405da5aba5ae4d8583c0",
    "0201040b000000008699c2c53707405da5aba5ae4d8583c0",
    "0201040b090000008699c2c53707405da5aba5ae4d8583c0",
    "0201040b0b0000008699c2c53707405da5aba5ae4d8583c0",
];
