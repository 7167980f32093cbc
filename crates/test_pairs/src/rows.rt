//! The pairs of a small lake, and lakes that are broken in one place, as `checks/pairs.py` spells them.

/// What an opening is to come to.
#[derive(Clone, Copy, Debug, PartialEq, Eq)]
pub(crate) enum Due {
    /// A lake, over the same pairs.
    Sound,
    /// The pair of this number is broken, counted from 0.
    Broken(u64),
    /// The tree of a commit isn't read.
    Unread,
}

/// A lake without the pairs of these keys, and then with these pairs, all in hex.
pub(crate) struct Row {
    pub about: &'static str,
    pub without: &'static [&'static str],
    pub put: &'static [(&'static str, &'static str)],
    pub due: Due,
}

/// The pairs of the lake, in hex.
pub(crate) static LAKE: &[(&str, &str)] = &[
    (
        "42000a717569636b73746172740003646576",
        "00000000000000029f8f347419f170c976f564a86a5c45c852ec22852be22cdfcbde9b879b6e0cda0000000000000001000000010000000000000002",
    ),
    (
        "42000a717569636b737461727400046d61696e",
        "0000000000000003c5bb802207f4aa0b765f30e51857184099331417f60ddf031c1560797471ef9b000000000000000300000000",
    ),
    (
        "43000a717569636b73746172749f8f347419f170c976f564a86a5c45c852ec22852be22cdfcbde9b879b6e0cda",
        "0001957b88b12730e646e0f33d3618b77dfa579e8231e3c59c7104be7165611c80270000000000000001000000000000000000000003616e6e0000000566697273740000",
    ),
    (
        "43000a717569636b7374617274c5bb802207f4aa0b765f30e51857184099331417f60ddf031c1560797471ef9b",
        "00014303e209ed25e1fdd7304d2515339e9ac025623ad1eaf7a6bcf68728b616ed250000000000000002000000000000000000019f8f347419f170c976f564a86a5c45c852ec22852be22cdfcbde9b879b6e0cda0003616e6e000000067365636f6e640000",
    ),
    (
        "4778fcdd9c4aad6cdde9c52aa0713ac88983aaf86282862b313f5a00710ec6d371",
        "01000000010001610000000000000000002cf24dba5fb0a30e26e83b2ac5b9e29e1b161e5c1fa7425e73043362938b98240000000000000005000000000000000000000000",
    ),
    (
        "4d4303e209ed25e1fdd7304d2515339e9ac025623ad1eaf7a6bcf68728b616ed25",
        "010000000178fcdd9c4aad6cdde9c52aa0713ac88983aaf86282862b313f5a00710ec6d37100000001000161000161",
    ),
    (
        "4d957b88b12730e646e0f33d3618b77dfa579e8231e3c59c7104be7165611c8027",
        "0100000000",
    ),
    (
        "4e000a717569636b737461727402",
        "5b7b227061747465726e223a22762a227d5d",
    ),
    (
        "52000a717569636b7374617274",
        "000000000000000000046d61696e0000000000000001",
    ),
    (
        "53000000000000000262",
        "010000000000000000012cf24dba5fb0a30e26e83b2ac5b9e29e1b161e5c1fa7425e73043362938b98240000000000000005000000000000000000000000",
    ),
    (
        "53000000000000000363",
        "010000000000000000022cf24dba5fb0a30e26e83b2ac5b9e29e1b161e5c1fa7425e73043362938b98240000000000000005000000000000000000000000",
    ),
    (
        "54000a717569636b737461727400027631",
        "9f8f347419f170c976f564a86a5c45c852ec22852be22cdfcbde9b879b6e0cda",
    ),
    ("580000000000000003", ""),
    ("5a", "000000000000000400000000000000040000000000000004"),
];

pub(crate) static REPOSITORIES: [Row; 6] = [
    Row {
        about: "the lake as it is",
        without: &[],
        put: &[],
        due: Due::Sound,
    },
    Row {
        about: "no repository",
        without: &["52000a717569636b7374617274"],
        put: &[],
        due: Due::Broken(0),
    },
    Row {
        about: "a branch of no repository",
        without: &[],
        put: &[(
            "4200056f7468657200046d61696e",
            "00000000000000029f8f347419f170c976f564a86a5c45c852ec22852be22cdfcbde9b879b6e0cda000000000000000000000000",
        )],
        due: Due::Broken(0),
    },
    Row {
        about: "a commit of no repository",
        without: &[],
        put: &[(
            "4300056f746865729f8f347419f170c976f564a86a5c45c852ec22852be22cdfcbde9b879b6e0cda",
            "0001957b88b12730e646e0f33d3618b77dfa579e8231e3c59c7104be7165611c80270000000000000001000000000000000000000003616e6e0000000566697273740000",
        )],
        due: Due::Broken(2),
    },
    Row {
        about: "a setting of no repository",
        without: &[],
        put: &[("4e00056f7468657202", "5b7b227061747465726e223a22762a227d5d")],
        due: Due::Broken(7),
    },
    Row {
        about: "a tag of no repository",
        without: &[],
        put: &[(
            "5400056f7468657200027631",
            "9f8f347419f170c976f564a86a5c45c852ec22852be22cdfcbde9b879b6e0cda",
        )],
        due: Due::Broken(11),
    },
];

pub(crate) static PLACES: [Row; 4] = [
    Row {
        about: "no default branch",
        without: &[],
        put: &[(
            "52000a717569636b7374617274",
            "000000000000000000046e6f6e650000000000000001",
        )],
        due: Due::Broken(8),
    },
    Row {
        about: "no head",
        without: &[],
        put: &[(
            "42000a717569636b73746172740003646576",
            "0000000000000002ffffffffffffffffffffffffffffffffffffffffffffffffffffffffffffffff0000000000000001000000010000000000000002",
        )],
        due: Due::Broken(0),
    },
    Row {
        about: "no commit of a tag",
        without: &[],
        put: &[(
            "54000a717569636b737461727400027631",
            "ffffffffffffffffffffffffffffffffffffffffffffffffffffffffffffffff",
        )],
        due: Due::Broken(11),
    },
    Row {
        about: "no parent",
        without: &[
            "43000a717569636b73746172749f8f347419f170c976f564a86a5c45c852ec22852be22cdfcbde9b879b6e0cda",
        ],
        put: &[
            (
                "42000a717569636b73746172740003646576",
                "0000000000000002c5bb802207f4aa0b765f30e51857184099331417f60ddf031c1560797471ef9b0000000000000001000000010000000000000002",
            ),
            (
                "54000a717569636b737461727400027631",
                "c5bb802207f4aa0b765f30e51857184099331417f60ddf031c1560797471ef9b",
            ),
        ],
        due: Due::Broken(2),
    },
];

pub(crate) static COMMITS: [Row; 5] = [
    Row {
        about: "a later generation",
        without: &[
            "43000a717569636b7374617274c5bb802207f4aa0b765f30e51857184099331417f60ddf031c1560797471ef9b",
        ],
        put: &[
            (
                "43000a717569636b7374617274acb9f03e9568c582d74e5916fa0dc84127cbeb985f0039f62f5a9e4e83bfec5f",
                "00014303e209ed25e1fdd7304d2515339e9ac025623ad1eaf7a6bcf68728b616ed250000000000000003000000000000000000019f8f347419f170c976f564a86a5c45c852ec22852be22cdfcbde9b879b6e0cda0003616e6e000000067365636f6e640000",
            ),
            (
                "42000a717569636b737461727400046d61696e",
                "0000000000000003acb9f03e9568c582d74e5916fa0dc84127cbeb985f0039f62f5a9e4e83bfec5f000000000000000300000000",
            ),
        ],
        due: Due::Broken(3),
    },
    Row {
        about: "other bytes of an id",
        without: &[],
        put: &[(
            "43000a717569636b7374617274c5bb802207f4aa0b765f30e51857184099331417f60ddf031c1560797471ef9b",
            "00014303e209ed25e1fdd7304d2515339e9ac025623ad1eaf7a6bcf68728b616ed250000000000000002000000000000000000019f8f347419f170c976f564a86a5c45c852ec22852be22cdfcbde9b879b6e0cda0003616e6e000000056f746865720000",
        )],
        due: Due::Broken(3),
    },
    Row {
        about: "an expired head",
        without: &[],
        put: &[(
            "43000a717569636b7374617274c5bb802207f4aa0b765f30e51857184099331417f60ddf031c1560797471ef9b",
            "01014303e209ed25e1fdd7304d2515339e9ac025623ad1eaf7a6bcf68728b616ed250000000000000002000000000000000000019f8f347419f170c976f564a86a5c45c852ec22852be22cdfcbde9b879b6e0cda0003616e6e000000067365636f6e640000",
        )],
        due: Due::Broken(1),
    },
    Row {
        about: "an expired commit of a tag",
        without: &[],
        put: &[
            (
                "42000a717569636b737461727400046d61696e",
                "00000000000000039f8f347419f170c976f564a86a5c45c852ec22852be22cdfcbde9b879b6e0cda000000000000000300000000",
            ),
            (
                "54000a717569636b737461727400027631",
                "c5bb802207f4aa0b765f30e51857184099331417f60ddf031c1560797471ef9b",
            ),
            (
                "43000a717569636b7374617274c5bb802207f4aa0b765f30e51857184099331417f60ddf031c1560797471ef9b",
                "01014303e209ed25e1fdd7304d2515339e9ac025623ad1eaf7a6bcf68728b616ed250000000000000002000000000000000000019f8f347419f170c976f564a86a5c45c852ec22852be22cdfcbde9b879b6e0cda0003616e6e000000067365636f6e640000",
            ),
        ],
        due: Due::Broken(11),
    },
    Row {
        about: "an expired commit that nothing names",
        without: &[],
        put: &[
            (
                "42000a717569636b737461727400046d61696e",
                "00000000000000039f8f347419f170c976f564a86a5c45c852ec22852be22cdfcbde9b879b6e0cda000000000000000300000000",
            ),
            (
                "43000a717569636b7374617274c5bb802207f4aa0b765f30e51857184099331417f60ddf031c1560797471ef9b",
                "01014303e209ed25e1fdd7304d2515339e9ac025623ad1eaf7a6bcf68728b616ed250000000000000002000000000000000000019f8f347419f170c976f564a86a5c45c852ec22852be22cdfcbde9b879b6e0cda0003616e6e000000067365636f6e640000",
            ),
        ],
        due: Due::Sound,
    },
];

pub(crate) static TOKENS: [Row; 5] = [
    Row {
        about: "a token of an earlier branch",
        without: &[],
        put: &[(
            "42000a717569636b737461727400046d61696e",
            "0000000000000003c5bb802207f4aa0b765f30e51857184099331417f60ddf031c1560797471ef9b000000000000000100000000",
        )],
        due: Due::Broken(1),
    },
    Row {
        about: "a token of one branch twice",
        without: &[],
        put: &[(
            "42000a717569636b73746172740003646576",
            "00000000000000029f8f347419f170c976f564a86a5c45c852ec22852be22cdfcbde9b879b6e0cda00000000000000010000000200000000000000020000000000000001",
        )],
        due: Due::Broken(0),
    },
    Row {
        about: "a change under no token",
        without: &[],
        put: &[(
            "53000000000000000078",
            "010000000000000000012cf24dba5fb0a30e26e83b2ac5b9e29e1b161e5c1fa7425e73043362938b98240000000000000005000000000000000000000000",
        )],
        due: Due::Broken(9),
    },
    Row {
        about: "a token that was not given out",
        without: &[],
        put: &[(
            "42000a717569636b737461727400046d61696e",
            "0000000000000003c5bb802207f4aa0b765f30e51857184099331417f60ddf031c1560797471ef9b000000000000000400000000",
        )],
        due: Due::Broken(1),
    },
    Row {
        about: "a sealed token that was not given out",
        without: &[],
        put: &[(
            "42000a717569636b73746172740003646576",
            "00000000000000029f8f347419f170c976f564a86a5c45c852ec22852be22cdfcbde9b879b6e0cda00000000000000010000000200000000000000020000000000000004",
        )],
        due: Due::Broken(0),
    },
];

pub(crate) static SETTINGS: [Row; 5] = [
    Row {
        about: "a text with a space",
        without: &[],
        put: &[(
            "4e000a717569636b737461727402",
            "5b7b227061747465726e223a2022762a227d5d",
        )],
        due: Due::Broken(7),
    },
    Row {
        about: "a text of another kind",
        without: &[],
        put: &[(
            "4e000a717569636b737461727402",
            "7b227061747465726e223a22762a227d",
        )],
        due: Due::Broken(7),
    },
    Row {
        about: "a text of another setting",
        without: &[],
        put: &[(
            "4e000a717569636b737461727403",
            "5b7b227061747465726e223a22762a227d5d",
        )],
        due: Due::Broken(8),
    },
    Row {
        about: "a version that was not given out",
        without: &[],
        put: &[(
            "42000a717569636b73746172740003646576",
            "00000000000000049f8f347419f170c976f564a86a5c45c852ec22852be22cdfcbde9b879b6e0cda0000000000000001000000010000000000000002",
        )],
        due: Due::Broken(0),
    },
    Row {
        about: "a version of settings that was not given out",
        without: &[],
        put: &[(
            "52000a717569636b7374617274",
            "000000000000000000046d61696e0000000000000004",
        )],
        due: Due::Broken(8),
    },
];
