//! Lakes that are broken in a number, a count or a file, or by a pair of no form, as `checks/pairs.py` spells them.

use crate::rows::{Due, Row};

pub(crate) static GIVEN_NUMBERS: [Row; 4] = [
    Row {
        about: "a committed number that was not given out",
        without: &[],
        put: &[("5a", "000000000000000000000000000000040000000000000004")],
        due: Due::Broken(4),
    },
    Row {
        about: "a sealed number that was not given out",
        without: &[],
        put: &[("5a", "000000000000000100000000000000040000000000000004")],
        due: Due::Broken(9),
    },
    Row {
        about: "a staged number that was not given out",
        without: &[],
        put: &[("5a", "000000000000000200000000000000040000000000000004")],
        due: Due::Broken(10),
    },
    Row {
        about: "a number that is gone and was not given out",
        without: &[],
        put: &[("5a", "000000000000000300000000000000040000000000000004")],
        due: Due::Broken(12),
    },
];

pub(crate) static GONE_NUMBERS: [Row; 5] = [
    Row {
        about: "a committed number that is gone",
        without: &[],
        put: &[("580000000000000000", "")],
        due: Due::Broken(4),
    },
    Row {
        about: "a sealed number that is gone",
        without: &[],
        put: &[("580000000000000001", "")],
        due: Due::Broken(9),
    },
    Row {
        about: "a staged number that is gone",
        without: &[],
        put: &[("580000000000000002", "")],
        due: Due::Broken(10),
    },
    Row {
        about: "a number of an expired commit that is gone",
        without: &[],
        put: &[
            (
                "42000a717569636b737461727400046d61696e",
                "00000000000000039f8f347419f170c976f564a86a5c45c852ec22852be22cdfcbde9b879b6e0cda000000000000000300000000",
            ),
            (
                "43000a717569636b7374617274c5bb802207f4aa0b765f30e51857184099331417f60ddf031c1560797471ef9b",
                "01014303e209ed25e1fdd7304d2515339e9ac025623ad1eaf7a6bcf68728b616ed250000000000000002000000000000000000019f8f347419f170c976f564a86a5c45c852ec22852be22cdfcbde9b879b6e0cda0003616e6e000000067365636f6e640000",
            ),
            ("580000000000000000", ""),
        ],
        due: Due::Sound,
    },
    Row {
        about: "a number that is gone under a newer change",
        without: &[],
        put: &[
            (
                "42000a717569636b73746172740003646576",
                "00000000000000029f8f347419f170c976f564a86a5c45c852ec22852be22cdfcbde9b879b6e0cda00000000000000010000000200000000000000000000000000000002",
            ),
            (
                "53000000000000000062",
                "010000000000000000002cf24dba5fb0a30e26e83b2ac5b9e29e1b161e5c1fa7425e73043362938b98240000000000000005000000000000000000000000",
            ),
            ("580000000000000001", ""),
        ],
        due: Due::Sound,
    },
];

pub(crate) static COUNTS: [Row; 4] = [
    Row {
        about: "no counts",
        without: &["5a"],
        put: &[],
        due: Due::Broken(0),
    },
    Row {
        about: "a large next number",
        without: &[],
        put: &[("5a", "800000000000000000000000000000040000000000000004")],
        due: Due::Broken(13),
    },
    Row {
        about: "a large next version",
        without: &[],
        put: &[("5a", "000000000000000480000000000000000000000000000004")],
        due: Due::Broken(13),
    },
    Row {
        about: "a large next token",
        without: &[],
        put: &[("5a", "000000000000000400000000000000048000000000000000")],
        due: Due::Broken(13),
    },
];

pub(crate) static DIGESTS: [Row; 2] = [
    Row {
        about: "a commit in two repositories",
        without: &[],
        put: &[
            (
                "5200067365636f6e64",
                "000000000000000000046d61696e0000000000000000",
            ),
            (
                "4200067365636f6e6400046d61696e",
                "00000000000000019f8f347419f170c976f564a86a5c45c852ec22852be22cdfcbde9b879b6e0cda000000000000000000000000",
            ),
            (
                "4300067365636f6e649f8f347419f170c976f564a86a5c45c852ec22852be22cdfcbde9b879b6e0cda",
                "0001957b88b12730e646e0f33d3618b77dfa579e8231e3c59c7104be7165611c80270000000000000001000000000000000000000003616e6e0000000566697273740000",
            ),
        ],
        due: Due::Sound,
    },
    Row {
        about: "two commits of one id",
        without: &[],
        put: &[
            (
                "5200067365636f6e64",
                "000000000000000000046d61696e0000000000000000",
            ),
            (
                "4200067365636f6e6400046d61696e",
                "00000000000000019f8f347419f170c976f564a86a5c45c852ec22852be22cdfcbde9b879b6e0cda000000000000000000000000",
            ),
            (
                "4300067365636f6e649f8f347419f170c976f564a86a5c45c852ec22852be22cdfcbde9b879b6e0cda",
                "00014303e209ed25e1fdd7304d2515339e9ac025623ad1eaf7a6bcf68728b616ed250000000000000002000000000000000000019f8f347419f170c976f564a86a5c45c852ec22852be22cdfcbde9b879b6e0cda0003616e6e000000056f746865720000",
            ),
        ],
        due: Due::Broken(3),
    },
];

pub(crate) static FILES: [Row; 5] = [
    Row {
        about: "a range that nothing names",
        without: &[],
        put: &[(
            "47f976bcc994285361a7ec13535976dea7621cb4eaa3d02b84c984d35f634b5ae9",
            "010000000100017a0000000000000000032cf24dba5fb0a30e26e83b2ac5b9e29e1b161e5c1fa7425e73043362938b98240000000000000005000000000000000000000000",
        )],
        due: Due::Sound,
    },
    Row {
        about: "a metarange that nothing names",
        without: &[],
        put: &[(
            "4db8bda70d274a366b9eccd8dd8f56ea6f17d911794f552ff3e89f2cb543720569",
            "0100000001f976bcc994285361a7ec13535976dea7621cb4eaa3d02b84c984d35f634b5ae90000000100017a00017a",
        )],
        due: Due::Sound,
    },
    Row {
        about: "no range",
        without: &["4778fcdd9c4aad6cdde9c52aa0713ac88983aaf86282862b313f5a00710ec6d371"],
        put: &[],
        due: Due::Unread,
    },
    Row {
        about: "no metarange",
        without: &["4d4303e209ed25e1fdd7304d2515339e9ac025623ad1eaf7a6bcf68728b616ed25"],
        put: &[],
        due: Due::Unread,
    },
    Row {
        about: "a damaged range",
        without: &[],
        put: &[(
            "4778fcdd9c4aad6cdde9c52aa0713ac88983aaf86282862b313f5a00710ec6d371",
            "01000000010001610000000000000000002cf24dba5fb0a30e26e83b2ac5b9e29e1b161e5c1fa7425e73043362938b982400000000000000050000000000000000000000ff",
        )],
        due: Due::Unread,
    },
];

pub(crate) static NAMED_FORMS: [Row; 5] = [
    Row {
        about: "a head of no form",
        without: &[],
        put: &[(
            "43000a717569636b7374617274c5bb802207f4aa0b765f30e51857184099331417f60ddf031c1560797471ef9b",
            "00014303e209ed25e1fdd7304d2515339e9ac025623ad1eaf7a6bcf68728b616ed250000000000000002000000000000000000019f8f347419f170c976f564a86a5c45c852ec22852be22cdfcbde9b879b6e0cda0003616e6e000000067365636f6e6400",
        )],
        due: Due::Broken(3),
    },
    Row {
        about: "a parent of no form",
        without: &[],
        put: &[
            (
                "42000a717569636b73746172740003646576",
                "0000000000000002c5bb802207f4aa0b765f30e51857184099331417f60ddf031c1560797471ef9b0000000000000001000000010000000000000002",
            ),
            (
                "54000a717569636b737461727400027631",
                "c5bb802207f4aa0b765f30e51857184099331417f60ddf031c1560797471ef9b",
            ),
            (
                "43000a717569636b73746172749f8f347419f170c976f564a86a5c45c852ec22852be22cdfcbde9b879b6e0cda",
                "0001957b88b12730e646e0f33d3618b77dfa579e8231e3c59c7104be7165611c80270000000000000001000000000000000000000003616e6e00000005666972737400",
            ),
        ],
        due: Due::Broken(2),
    },
    Row {
        about: "a repository of no form",
        without: &[],
        put: &[(
            "52000a717569636b7374617274",
            "000000000000000000046d61696e00000000000000",
        )],
        due: Due::Broken(8),
    },
    Row {
        about: "a branch of no form",
        without: &[],
        put: &[(
            "42000a717569636b73746172740003646576",
            "00000000000000029f8f347419f170c976f564a86a5c45c852ec22852be22cdfcbde9b879b6e0cda00000000000000010000000100000000000000",
        )],
        due: Due::Broken(0),
    },
    Row {
        about: "a tag of no form",
        without: &[],
        put: &[(
            "54000a717569636b737461727400027631",
            "9f8f347419f170c976f564a86a5c45c852ec22852be22cdfcbde9b879b6e0c",
        )],
        due: Due::Broken(11),
    },
];

pub(crate) static OTHER_FORMS: [Row; 5] = [
    Row {
        about: "a change of no form",
        without: &[],
        put: &[(
            "53000000000000000363",
            "010000000000000000022cf24dba5fb0a30e26e83b2ac5b9e29e1b161e5c1fa7425e73043362938b982400000000000000050000000000000000000000",
        )],
        due: Due::Broken(10),
    },
    Row {
        about: "a gone number of no form",
        without: &[],
        put: &[("580000000000000003", "00")],
        due: Due::Broken(12),
    },
    Row {
        about: "counts of no form",
        without: &[],
        put: &[("5a", "0000000000000004000000000000000400000000000000")],
        due: Due::Broken(13),
    },
    Row {
        about: "a key of no form",
        without: &[],
        put: &[("51", "")],
        due: Due::Broken(8),
    },
    Row {
        about: "a branch with the name of an id",
        without: &[],
        put: &[(
            "42000a717569636b7374617274004030303030303030303030303030303030303030303030303030303030303030303030303030303030303030303030303030303030303030303030303030303030",
            "00000000000000029f8f347419f170c976f564a86a5c45c852ec22852be22cdfcbde9b879b6e0cda000000000000000000000000",
        )],
        due: Due::Broken(2),
    },
];
