//! Each verb once, to the byte, and its words in other orders and with quotes.
use crate::told::table;
use std::process::Abort;
use std::test::Fail;

// Each line, and behind it what it sends, with `|` for each end of a line.
const TABLE: &str = "\
repo create lakefs://demo s3://bucket\n\
POST /api/v1/repositories HTTP/1.1|Host: localhost|Content-Type: application/json|Content-Length: 49|Connection\
: close||{\"name\":\"demo\",\"storage_namespace\":\"s3://bucket\"}\n\
repo list\n\
GET /api/v1/repositories HTTP/1.1|Host: localhost|Connection: close||\n\
repo list --amount 007 --after \"a b\"\n\
GET /api/v1/repositories?after=a+b&amount=7 HTTP/1.1|Host: localhost|Connection: close||\n\
branch create lakefs://quickstart/dev --source lakefs://quickstart/main~1\n\
POST /api/v1/repositories/quickstart/branches HTTP/1.1|Host: localhost|Content-Type: application/json|Content-Le\
ngth: 32|Connection: close||{\"name\":\"dev\",\"source\":\"main~1\"}\n\
branch create lakefs://quickstart/2cf24dba5fb0a30e26e83b2ac5b9e29e1b161e5c1fa7425e73043362938b9824 \
--source lakefs://quickstart/main\n\
POST /api/v1/repositories/quickstart/branches HTTP/1.1|Host: localhost|Content-Type: application/json|Content-Le\
ngth: 91|Connection: close||{\"name\":\"2cf24dba5fb0a30e26e83b2ac5b9e29e1b161e5c1fa7425e73043362938b9824\",\"sou\
rce\":\"main\"}\n\
branch list lakefs://quickstart --after=main --amount=0\n\
GET /api/v1/repositories/quickstart/branches?after=main&amount=0 HTTP/1.1|Host: localhost|Connection: close||\n\
branch show lakefs://quickstart/main\n\
GET /api/v1/repositories/quickstart/branches/main HTTP/1.1|Host: localhost|Connection: close||\n\
branch delete lakefs://quickstart/dev\n\
DELETE /api/v1/repositories/quickstart/branches/dev HTTP/1.1|Host: localhost|Connection: close||\n\
branch reset lakefs://quickstart/dev\n\
PUT /api/v1/repositories/quickstart/branches/dev HTTP/1.1|Host: localhost|Content-Type: application/json|Content\
-Length: 16|Connection: close||{\"type\":\"reset\"}\n\
branch reset lakefs://quickstart/dev --object a/b\n\
PUT /api/v1/repositories/quickstart/branches/dev HTTP/1.1|Host: localhost|Content-Type: application/json|Content\
-Length: 30|Connection: close||{\"path\":\"a/b\",\"type\":\"object\"}\n\
branch reset lakefs://quickstart/dev --prefix=\n\
PUT /api/v1/repositories/quickstart/branches/dev HTTP/1.1|Host: localhost|Content-Type: application/json|Content\
-Length: 34|Connection: close||{\"path\":\"\",\"type\":\"common_prefix\"}\n\
branch revert lakefs://quickstart/main main~2 -m 1\n\
POST /api/v1/repositories/quickstart/branches/main/revert HTTP/1.1|Host: localhost|Content-Type: application/jso\
n|Content-Length: 34|Connection: close||{\"parent_number\":1,\"ref\":\"main~2\"}\n\
branch revert --parent-number=02 lakefs://quickstart/main main\n\
POST /api/v1/repositories/quickstart/branches/main/revert HTTP/1.1|Host: localhost|Content-Type: application/jso\
n|Content-Length: 32|Connection: close||{\"parent_number\":2,\"ref\":\"main\"}\n\
tag create lakefs://quickstart/v1 lakefs://quickstart/main\n\
POST /api/v1/repositories/quickstart/tags HTTP/1.1|Host: localhost|Content-Type: application/json|Content-Length\
: 24|Connection: close||{\"id\":\"v1\",\"ref\":\"main\"}\n\
tag list lakefs://quickstart\n\
GET /api/v1/repositories/quickstart/tags HTTP/1.1|Host: localhost|Connection: close||\n\
tag show lakefs://quickstart/v1\n\
GET /api/v1/repositories/quickstart/tags/v1 HTTP/1.1|Host: localhost|Connection: close||\n\
tag delete lakefs://quickstart/v1\n\
DELETE /api/v1/repositories/quickstart/tags/v1 HTTP/1.1|Host: localhost|Connection: close||\n\
commit lakefs://quickstart/main -m \"a message\" --meta k=v,a=,c=d=e\n\
POST /api/v1/repositories/quickstart/branches/main/commits HTTP/1.1|Host: localhost|Content-Type: application/js\
on|Content-Length: 61|Connection: close||{\"message\":\"a message\",\"metadata\":{\"a\":\"\",\"c\":\"d=e\",\"k\"\
:\"v\"}}\n\
commit -m=m lakefs://quickstart/main\n\
POST /api/v1/repositories/quickstart/branches/main/commits HTTP/1.1|Host: localhost|Content-Type: application/js\
on|Content-Length: 15|Connection: close||{\"message\":\"m\"}\n\
commit -mm lakefs://quickstart/main\n\
POST /api/v1/repositories/quickstart/branches/main/commits HTTP/1.1|Host: localhost|Content-Type: application/js\
on|Content-Length: 15|Connection: close||{\"message\":\"m\"}\n\
commit -m-x lakefs://quickstart/main\n\
POST /api/v1/repositories/quickstart/branches/main/commits HTTP/1.1|Host: localhost|Content-Type: application/js\
on|Content-Length: 16|Connection: close||{\"message\":\"-x\"}\n\
commit -m=-x lakefs://quickstart/main\n\
POST /api/v1/repositories/quickstart/branches/main/commits HTTP/1.1|Host: localhost|Content-Type: application/js\
on|Content-Length: 16|Connection: close||{\"message\":\"-x\"}\n\
commit -m - lakefs://quickstart/main\n\
POST /api/v1/repositories/quickstart/branches/main/commits HTTP/1.1|Host: localhost|Content-Type: application/js\
on|Content-Length: 15|Connection: close||{\"message\":\"-\"}\n\
commit -m \"\" -- lakefs://quickstart/main\n\
POST /api/v1/repositories/quickstart/branches/main/commits HTTP/1.1|Host: localhost|Content-Type: application/js\
on|Content-Length: 14|Connection: close||{\"message\":\"\"}\n\
log lakefs://quickstart/main~\n\
GET /api/v1/repositories/quickstart/refs/main~/commits HTTP/1.1|Host: localhost|Connection: close||\n\
log lakefs://quickstart/main --since 1969-12-31T23:59:59Z\n\
GET /api/v1/repositories/quickstart/refs/main/commits?since=1969-12-31T23%3A59%3A59Z HTTP/1.1|Host: localhost|Co\
nnection: close||\n\
log lakefs://quickstart/main --since x\n\
GET /api/v1/repositories/quickstart/refs/main/commits?since=x HTTP/1.1|Host: localhost|Connection: close||\n\
log lakefs://quickstart/main --since 1970-01-01T00:00:01Z --amount 3 --after x\n\
GET /api/v1/repositories/quickstart/refs/main/commits?after=x&amount=3&since=1970-01-01T00%3A00%3A01Z HTTP/1.1|H\
ost: localhost|Connection: close||\n\
merge lakefs://quickstart/dev lakefs://quickstart/main\n\
POST /api/v1/repositories/quickstart/refs/dev/merge/main HTTP/1.1|Host: localhost|Content-Type: application/json\
|Content-Length: 2|Connection: close||{}\n\
merge lakefs://quickstart/dev lakefs://quickstart/main --strategy source-wins -m x --meta a=1\n\
POST /api/v1/repositories/quickstart/refs/dev/merge/main HTTP/1.1|Host: localhost|Content-Type: application/json\
|Content-Length: 61|Connection: close||{\"message\":\"x\",\"metadata\":{\"a\":\"1\"},\"strategy\":\"source-wins\"}\n\
cherry-pick lakefs://quickstart/c~1 lakefs://quickstart/main -m 9999999999999999999\n\
POST /api/v1/repositories/quickstart/branches/main/cherry-pick HTTP/1.1|Host: localhost|Content-Type: applicatio\
n/json|Content-Length: 49|Connection: close||{\"parent_number\":9999999999999999999,\"ref\":\"c~1\"}\n\
fs ls lakefs://quickstart/main\n\
GET /api/v1/repositories/quickstart/refs/main/objects/ls?prefix=&delimiter=%2F HTTP/1.1|Host: localhost|Connecti\
on: close||\n\
fs ls lakefs://quickstart/main/ --recursive\n\
GET /api/v1/repositories/quickstart/refs/main/objects/ls?prefix= HTTP/1.1|Host: localhost|Connection: close||\n\
fs ls lakefs://quickstart/main/a/b --amount 2 --after a/b/c\n\
GET /api/v1/repositories/quickstart/refs/main/objects/ls?prefix=a%2Fb&after=a%2Fb%2Fc&amount=2&delimiter=%2F HTT\
P/1.1|Host: localhost|Connection: close||\n\
fs stat lakefs://quickstart/main/a\n\
GET /api/v1/repositories/quickstart/refs/main/objects/stat?path=a HTTP/1.1|Host: localhost|Connection: close||\n\
fs cat \"lakefs://quickstart/main/dir/x y\"\n\
GET /api/v1/repositories/quickstart/refs/main/objects?path=dir%2Fx+y HTTP/1.1|Host: localhost|Connection: close||\n\
fs cat lakefs://quickstart/main@^2~3/%41*\n\
GET /api/v1/repositories/quickstart/refs/main%40%5E2~3/objects?path=%2541* HTTP/1.1|Host: localhost|Connection: \
close||\n\
fs cat lakefs://quickstart/main/ü\n\
GET /api/v1/repositories/quickstart/refs/main/objects?path=%C3%BC HTTP/1.1|Host: localhost|Connection: close||\n\
--user al!ce fs upload lakefs://quickstart/main/a --text hello\n\
POST /api/v1/repositories/quickstart/branches/main/objects?path=a HTTP/1.1|Host: localhost|Lake-User: al!ce|Cont\
ent-Type: application/octet-stream|Content-Length: 5|Connection: close||hello\n\
fs upload lakefs://quickstart/main/a --text=-x\n\
POST /api/v1/repositories/quickstart/branches/main/objects?path=a HTTP/1.1|Host: localhost|Content-Type: applica\
tion/octet-stream|Content-Length: 2|Connection: close||-x\n\
fs upload lakefs://quickstart/main/a --source \"f 1\"\n\
POST /api/v1/repositories/quickstart/branches/main/objects?path=a HTTP/1.1|Host: localhost|Content-Type: applica\
tion/octet-stream|Content-Length: 0|Connection: close|| <f 1\n\
fs download lakefs://quickstart/main/a f1\n\
GET /api/v1/repositories/quickstart/refs/main/objects?path=a HTTP/1.1|Host: localhost|Connection: close|| >f1\n\
fs rm lakefs://quickstart/main/a//b/\n\
DELETE /api/v1/repositories/quickstart/branches/main/objects?path=a%2F%2Fb%2F HTTP/1.1|Host: localhost|Connectio\
n: close||\n\
fs stage lakefs://quickstart/main/a --location s3://b/k --size 05 --checksum c\n\
PUT /api/v1/repositories/quickstart/branches/main/objects?path=a HTTP/1.1|Host: localhost|Content-Type: applicat\
ion/json|Content-Length: 61|Connection: close||{\"checksum\":\"c\",\"physical_address\":\"s3://b/k\",\"size_byte\
s\":5}\n\
fs stage --mtime 1 --content-type \"a b\" --meta z=1,a=2 lakefs://quickstart/main/a --checksum \"\" --size 92233\
72036854775808 --location x\n\
PUT /api/v1/repositories/quickstart/branches/main/objects?path=a HTTP/1.1|Host: localhost|Content-Type: applicat\
ion/json|Content-Length: 131|Connection: close||{\"checksum\":\"\",\"content_type\":\"a b\",\"metadata\":{\"a\"\
:\"2\",\"z\":\"1\"},\"mtime\":1,\"physical_address\":\"x\",\"size_bytes\":9223372036854775808}\n\
\x20 fs   rm   lakefs://quickstart/main/a  \n\
DELETE /api/v1/repositories/quickstart/branches/main/objects?path=a HTTP/1.1|Host: localhost|Connection: close||\n\
fs upload lakefs://quickstart/main/a --text q\"q\n\
POST /api/v1/repositories/quickstart/branches/main/objects?path=a HTTP/1.1|Host: localhost|Content-Type: applica\
tion/octet-stream|Content-Length: 3|Connection: close||q\"q\n\
fs upload lakefs://quickstart/main/a --text \"unclosed text\n\
POST /api/v1/repositories/quickstart/branches/main/objects?path=a HTTP/1.1|Host: localhost|Content-Type: applica\
tion/octet-stream|Content-Length: 13|Connection: close||unclosed text\n\
fs upload lakefs://quickstart/main/a --text \"q\"\n\
POST /api/v1/repositories/quickstart/branches/main/objects?path=a HTTP/1.1|Host: localhost|Content-Type: applica\
tion/octet-stream|Content-Length: 1|Connection: close||q\n\
\"fs\"\"rm\"\"lakefs://quickstart/main/a\"\n\
DELETE /api/v1/repositories/quickstart/branches/main/objects?path=a HTTP/1.1|Host: localhost|Connection: close||\n\
commit lakefs://quickstart/main -m tab\there\n\
POST /api/v1/repositories/quickstart/branches/main/commits HTTP/1.1|Host: localhost|Content-Type: application/js\
on|Content-Length: 23|Connection: close||{\"message\":\"tab\\there\"}\n\
fs upload lakefs://quickstart/main/a --text #no\n\
POST /api/v1/repositories/quickstart/branches/main/objects?path=a HTTP/1.1|Host: localhost|Content-Type: applica\
tion/octet-stream|Content-Length: 3|Connection: close||#no\n\
# fs rm\n\
skipped\n\
\n\
skipped\n\
";

#[test]
fn each_verb_sends_its_request(rt: HostRuntime) -> Result<(), Fail> {
    let again = table(rt.alloc(), TABLE)?;
    for (line, due) in again.lines().zip(TABLE.lines()) {
        assert!(rt; line == due, "{line}");
    }
    assert!(rt; again.as_str() == TABLE);
    Ok(())
}
