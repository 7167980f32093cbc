//! Each refusal of a form once, and where two stand together the one that comes first.
use crate::asked::{Row, ask_what_is_due};
use std::test::Fail;

// Paths, methods, segments and queries.
static FRONTS: [Row; 17] = [
    [
        "GET /api/v1/gc",
        "",
        "",
        "404 {\"message\":\"no such route\"}",
    ],
    [
        "GET /api/v1/repositories//branches",
        "",
        "",
        "404 {\"message\":\"no such route\"}",
    ],
    [
        "PATCH /api/v1/repositories",
        "",
        "",
        "405 {\"message\":\"method not allowed\"}",
    ],
    [
        "GET /api/v1/repositories/De/branches",
        "",
        "",
        "400 {\"message\":\"bad value: r\"}",
    ],
    [
        "GET /api/v1/repositories/demo/branches/a%2Fb",
        "",
        "",
        "400 {\"message\":\"bad value: b\"}",
    ],
    [
        "DELETE /api/v1/repositories/demo/tags/-v",
        "",
        "",
        "400 {\"message\":\"bad value: t\"}",
    ],
    [
        "GET /api/v1/repositories/demo/refs/main~x/objects?path=a",
        "",
        "",
        "400 {\"message\":\"bad value: ref\"}",
    ],
    [
        "POST /api/v1/repositories/demo/refs/~1/merge/main",
        "",
        "{}",
        "400 {\"message\":\"bad value: src\"}",
    ],
    [
        "POST /api/v1/repositories/demo/refs/dev/merge/main~1",
        "",
        "{}",
        "400 {\"message\":\"bad value: dst\"}",
    ],
    [
        "GET /api/v1/repositories/demo/commits/00",
        "",
        "",
        "400 {\"message\":\"bad value: id\"}",
    ],
    [
        "GET /api/v1/repositories/demo/refs/main/objects",
        "",
        "",
        "400 {\"message\":\"missing: path\"}",
    ],
    [
        "DELETE /api/v1/repositories/demo/branches/dev/objects?path=",
        "",
        "",
        "400 {\"message\":\"bad value: path\"}",
    ],
    [
        "GET /api/v1/repositories?after=%FF",
        "",
        "",
        "400 {\"message\":\"bad value: after\"}",
    ],
    [
        "GET /api/v1/repositories?amount=1001",
        "",
        "",
        "400 {\"message\":\"bad value: amount\"}",
    ],
    [
        "GET /api/v1/repositories/demo/refs/main/commits?after=00",
        "",
        "",
        "400 {\"message\":\"bad value: after\"}",
    ],
    [
        "GET /api/v1/repositories/demo/refs/main/commits?since=noon",
        "",
        "",
        "400 {\"message\":\"bad value: since\"}",
    ],
    [
        "GET /api/v1/repositories/demo/refs/main/objects/ls?delimiter=%80",
        "",
        "",
        "400 {\"message\":\"bad value: delimiter\"}",
    ],
];

// Heads and bodies.
static BODIES: [Row; 22] = [
    [
        "POST /api/v1/repositories/demo/branches/dev/commits",
        "Lake-User: a b\r\n",
        "{}",
        "400 {\"message\":\"bad value: Lake-User\"}",
    ],
    [
        "POST /api/v1/repositories/demo/branches/dev/objects?path=a",
        "Content-Type: aaaaaaaaaaaaaaaaaaaaaaaaaaaaaaaaaaaaaaaaaaaaaaaaaaaaaaaaaaaaaaaaaaaaaaaaaaaaaaaaaaaaaaaaaaaaaa\
        aaaaaaaaaaaaaaaaaaaaaaaaaaaaaaaaaaaaaaaaaaaaaaaaaaaaaaaaaaaaaaaaaaaaaaaaaaaaaaaaaaaaaaaaaaaaaaaaaaaaaaaaaa\
        aaaaaaaaaaaaaaaaaaaaaaaaaaaaaaaaaaaaaaaaaaaaaaaaaaaaaaaaaaaa\r\n",
        "hello",
        "400 {\"message\":\"bad value: Content-Type\"}",
    ],
    [
        "POST /api/v1/repositories",
        "",
        "{\"name\":\"demo\"",
        "400 {\"message\":\"bad body\"}",
    ],
    [
        "POST /api/v1/repositories/demo/tags",
        "",
        "[]",
        "400 {\"message\":\"bad body\"}",
    ],
    [
        "POST /api/v1/repositories",
        "",
        "{\"default_branch\":\"main\"}",
        "400 {\"message\":\"missing: name\"}",
    ],
    [
        "POST /api/v1/repositories",
        "",
        "{\"name\":null}",
        "400 {\"message\":\"bad value: name\"}",
    ],
    [
        "POST /api/v1/repositories",
        "",
        "{\"name\":\"demo\",\"default_branch\":\"-\"}",
        "400 {\"message\":\"bad value: default_branch\"}",
    ],
    [
        "POST /api/v1/repositories",
        "",
        "{\"name\":\"demo\",\"storage_namespace\":1}",
        "400 {\"message\":\"bad value: storage_namespace\"}",
    ],
    [
        "POST /api/v1/repositories/demo/branches",
        "",
        "{\"name\":\"0000000000000000000000000000000000000000000000000000000000000001\",\"source\":\"main\"}",
        "400 {\"message\":\"bad value: name\"}",
    ],
    [
        "PUT /api/v1/repositories/demo/branches/dev",
        "",
        "{\"type\":\"all\"}",
        "400 {\"message\":\"bad value: type\"}",
    ],
    [
        "PUT /api/v1/repositories/demo/branches/dev/objects?path=a",
        "",
        "{\"physical_address\":\"lake://objects/0000000000000000\",\"checksum\":\"\",\"size_bytes\":5}",
        "400 {\"message\":\"bad value: physical_address\"}",
    ],
    [
        "PUT /api/v1/repositories/demo/branches/dev/objects?path=a",
        "",
        "{\"physical_address\":\"s3://x\",\"checksum\":\"\",\"size_bytes\":5.0}",
        "400 {\"message\":\"bad value: size_bytes\"}",
    ],
    [
        "PUT /api/v1/repositories/demo/branches/dev/objects?path=a",
        "",
        "{\"physical_address\":\"s3://x\",\"checksum\":\"\",\"size_bytes\":5,\"mtime\":-1}",
        "400 {\"message\":\"bad value: mtime\"}",
    ],
    [
        "PUT /api/v1/repositories/demo/branches/dev/objects?path=a",
        "",
        "{\"physical_address\":\"s3://x\",\"checksum\":\"\",\"size_bytes\":5,\"metadata\":{\"k\":1}}",
        "400 {\"message\":\"bad value: metadata\"}",
    ],
    [
        "POST /api/v1/repositories/demo/branches/dev/objects/copy?dest_path=b",
        "",
        "{\"src_path\":\"a\",\"src_ref\":\"\"}",
        "400 {\"message\":\"bad value: src_ref\"}",
    ],
    [
        "POST /api/v1/repositories/demo/refs/dev/merge/main",
        "",
        "{\"strategy\":\"ours\"}",
        "400 {\"message\":\"bad value: strategy\"}",
    ],
    [
        "POST /api/v1/repositories/demo/branches/dev/revert",
        "",
        "{\"ref\":\"main\",\"parent_number\":4294967296}",
        "400 {\"message\":\"bad value: parent_number\"}",
    ],
    [
        "PUT /api/v1/repositories/demo/settings/hooks",
        "",
        "[",
        "400 {\"message\":\"bad body\"}",
    ],
    [
        "PUT /api/v1/repositories/demo/settings/branch_protection",
        "",
        "{}",
        "400 {\"message\":\"bad rules\"}",
    ],
    [
        "PUT /api/v1/repositories/demo/settings/branch_protection",
        "",
        "[{\"pattern\":\"ma*\"},1]",
        "400 {\"message\":\"bad rules\"}",
    ],
    [
        "PUT /api/v1/repositories/demo/settings/branch_protection",
        "",
        "[{\"pattern\":\"ma*\"},{\"pattern\":1}]",
        "400 {\"message\":\"bad rule 1: pattern\"}",
    ],
    [
        "PUT /api/v1/repositories/demo/settings/hooks",
        "",
        "[{\"type\":\"require_meta\",\"branch\":\"ma*\",\"key\":\"\"}]",
        "400 {\"message\":\"bad rule 0: key\"}",
    ],
];

// Two together: a path and a method, a method and a segment, and so on in the order in which they count.
static PAIRS: [Row; 14] = [
    [
        "PATCH /api/v1/gc",
        "",
        "",
        "404 {\"message\":\"no such route\"}",
    ],
    [
        "PATCH /api/v1/repositories/De/branches",
        "",
        "",
        "405 {\"message\":\"method not allowed\"}",
    ],
    [
        "GET /api/v1/repositories/De/branches/a%2Fb",
        "",
        "",
        "400 {\"message\":\"bad value: r\"}",
    ],
    [
        "POST /api/v1/repositories/demo/refs/~1/merge/main~1",
        "",
        "",
        "400 {\"message\":\"bad value: src\"}",
    ],
    [
        "DELETE /api/v1/repositories/demo/branches/a%2Fb/objects",
        "",
        "",
        "400 {\"message\":\"bad value: b\"}",
    ],
    [
        "GET /api/v1/repositories?amount=0&after=%FF",
        "",
        "",
        "400 {\"message\":\"bad value: after\"}",
    ],
    [
        "GET /api/v1/repositories/demo/refs/main/commits?since=noon&amount=01",
        "",
        "",
        "400 {\"message\":\"bad value: amount\"}",
    ],
    [
        "GET /api/v1/repositories/demo/refs/main/objects/ls?delimiter=%80&amount=",
        "",
        "",
        "400 {\"message\":\"bad value: amount\"}",
    ],
    [
        "POST /api/v1/repositories/demo/branches/a%2Fb/commits",
        "Lake-User: a b\r\n",
        "",
        "400 {\"message\":\"bad value: b\"}",
    ],
    [
        "POST /api/v1/repositories/demo/branches/dev/commits",
        "Lake-User: a b\r\nLake-User: me\r\n",
        "[]",
        "400 {\"message\":\"bad value: Lake-User\"}",
    ],
    [
        "PUT /api/v1/repositories/demo/branches/dev/objects",
        "",
        "[]",
        "400 {\"message\":\"missing: path\"}",
    ],
    [
        "PUT /api/v1/repositories/demo/branches/dev/objects?path=a",
        "",
        "{\"checksum\":1,\"metadata\":1}",
        "400 {\"message\":\"missing: physical_address\"}",
    ],
    [
        "POST /api/v1/repositories/demo/refs/dev/merge/main",
        "",
        "{\"strategy\":\"ours\",\"metadata\":[]}",
        "400 {\"message\":\"bad value: metadata\"}",
    ],
    [
        "POST /api/v1/repositories/demo/branches/dev/cherry-pick",
        "",
        "{\"parent_number\":\"1\"}",
        "400 {\"message\":\"missing: ref\"}",
    ],
];

#[test]
fn each_form_is_refused_by_its_first_fault(rt: HostRuntime) -> Result<(), Fail> {
    ask_what_is_due(&rt, rt.alloc(), &FRONTS)?;
    ask_what_is_due(&rt, rt.alloc(), &BODIES)?;
    ask_what_is_due(&rt, rt.alloc(), &PAIRS)?;
    Ok(())
}
