//! What is shown of the bytes of each command's reply, and of what is no reply to it.
use lakectl_commands::reply_in;
use lakectl_words::{LineWords, line_words, request_of, shown};
use std::alloc::Global;
use std::process::Abort;
use std::test::Fail;

// A line, the bytes of a reply, and what is shown of it: the program's status, and then the output, or else the
// errors; with `|` for each end of a line. A commit of two of them is the first one of a fresh lake.
const TABLE: &str = "\
repo create lakefs://demo s3://b\n\
HTTP/1.1 201 Created|Content-Type: application/json|Content-Length: 55|Connection: close||{\"creation_date\":7,\
\"default_branch\":\"main\",\"id\":\"demo\"}\n\
0 Repository 'demo' created|\n\
repo list\n\
HTTP/1.1 200 OK|Content-Type: application/json|Content-Length: 150|Connection: close||{\"pagination\":{\"has_mor\
e\":false,\"max_per_page\":1000,\"next_offset\":\"\",\"results\":1},\"results\":[{\"creation_date\":7,\"default_\
branch\":\"main\",\"id\":\"demo\"}]}\n\
0 demo\t7\tmain|\n\
repo list\n\
HTTP/1.1 200 OK|Content-Type: application/json|Content-Length: 95|Connection: close||{\"pagination\":{\"has_more\
\":true,\"max_per_page\":1000,\"next_offset\":\"x\",\"results\":0},\"results\":[]}\n\
0 More after: x|\n\
branch create lakefs://quickstart/dev --source lakefs://quickstart/main\n\
HTTP/1.1 201 Created|Content-Type: text/plain|Content-Length: 64|Connection: close||aaaaaaaaaaaaaaaaaaaaaaaaaaaa\
aaaaaaaaaaaaaaaaaaaaaaaaaaaaaaaaaaaa\n\
0 Created branch 'dev' aaaaaaaaaaaaaaaaaaaaaaaaaaaaaaaaaaaaaaaaaaaaaaaaaaaaaaaaaaaaaaaa|\n\
branch create lakefs://quickstart/dev --source lakefs://quickstart/main\n\
HTTP/1.1 201 Created|Content-Type: text/plain|Content-Length: 64|Connection: close||aaaaaaaaaaaaaaaaaaaaaaaaaaaa\
aaaaaaaaaaaaaaaaaaaaaaaaaaaaaaaaaaaA\n\
8 \n\
branch create lakefs://quickstart/dev --source lakefs://quickstart/main\n\
HTTP/1.1 201 Created|Content-Type: text/plain|Content-Length: 29|Connection: close||{\"commit_id\":\"I\",\"id\":\
\"main\"}\n\
8 \n\
branch list lakefs://quickstart\n\
HTTP/1.1 200 OK|Content-Type: application/json|Content-Length: 154|Connection: close||{\"pagination\":{\"has_mor\
e\":false,\"max_per_page\":1000,\"next_offset\":\"\",\"results\":2},\"results\":[{\"commit_id\":\"I\",\"id\":\"m\
ain\"},{\"commit_id\":\"I\",\"id\":\"main\"}]}\n\
0 main\tI|main\tI|\n\
branch show lakefs://quickstart/main\n\
HTTP/1.1 200 OK|Content-Type: application/json|Content-Length: 29|Connection: close||{\"commit_id\":\"I\",\"id\"\
:\"main\"}\n\
0 main\tI|\n\
branch delete lakefs://quickstart/main\n\
HTTP/1.1 204 No Content|Connection: close||\n\
0 \n\
branch delete lakefs://quickstart/main\n\
HTTP/1.1 204 No Content|Content-Length: 1|Connection: close||x\n\
8 \n\
branch delete lakefs://quickstart/main\n\
HTTP/1.1 200 OK|Content-Type: application/json|Content-Length: 0|Connection: close||\n\
8 \n\
branch reset lakefs://quickstart/main\n\
HTTP/1.1 204 No Content|Connection: close||\n\
0 \n\
branch revert lakefs://quickstart/main main\n\
HTTP/1.1 201 Created|Content-Type: application/json|Content-Length: 131|Connection: close||{\"committer\":\"me\"\
,\"creation_date\":7,\"generation\":2,\"id\":\"I\",\"message\":\"M\",\"meta_range_id\":\"R\",\"metadata\":{\"k\"\
:\"v\"},\"parents\":[\"Q\"]}\n\
0 Commit: I|\n\
tag create lakefs://quickstart/v1 lakefs://quickstart/main\n\
HTTP/1.1 201 Created|Content-Type: application/json|Content-Length: 27|Connection: close||{\"commit_id\":\"I\",\
\"id\":\"v1\"}\n\
0 Created tag 'v1' I|\n\
tag list lakefs://quickstart\n\
HTTP/1.1 200 OK|Content-Type: application/json|Content-Length: 124|Connection: close||{\"pagination\":{\"has_mor\
e\":false,\"max_per_page\":1000,\"next_offset\":\"\",\"results\":1},\"results\":[{\"commit_id\":\"I\",\"id\":\"m\
ain\"}]}\n\
0 main\tI|\n\
tag show lakefs://quickstart/v1\n\
HTTP/1.1 200 OK|Content-Type: application/json|Content-Length: 29|Connection: close||{\"commit_id\":\"I\",\"id\"\
:\"main\"}\n\
0 main\tI|\n\
tag delete lakefs://quickstart/v1\n\
HTTP/1.1 204 No Content|Connection: close||\n\
0 \n\
commit lakefs://quickstart/main -m m\n\
HTTP/1.1 201 Created|Content-Type: application/json|Content-Length: 131|Connection: close||{\"committer\":\"me\"\
,\"creation_date\":7,\"generation\":2,\"id\":\"I\",\"message\":\"M\",\"meta_range_id\":\"R\",\"metadata\":{\"k\"\
:\"v\"},\"parents\":[\"Q\"]}\n\
0 Commit: I|\n\
commit lakefs://quickstart/main -m m\n\
HTTP/1.1 201 Created|Content-Type: application/json|Content-Length: 29|Connection: close||{\"commit_id\":\"I\",\
\"id\":\"main\"}\n\
8 \n\
log lakefs://quickstart/main\n\
HTTP/1.1 200 OK|Content-Type: application/json|Content-Length: 226|Connection: close||{\"pagination\":{\"has_mor\
e\":true,\"max_per_page\":1000,\"next_offset\":\"I\",\"results\":1},\"results\":[{\"committer\":\"me\",\"creatio\
n_date\":7,\"generation\":2,\"id\":\"I\",\"message\":\"M\",\"meta_range_id\":\"R\",\"metadata\":{\"k\":\"v\"},\"\
parents\":[\"Q\"]}]}\n\
0 ID: I|Author: me|Date: 7|Message: M||More after: I|\n\
log lakefs://quickstart/main\n\
HTTP/1.1 200 OK|Content-Type: application/json|Content-Length: 124|Connection: close||{\"pagination\":{\"has_mor\
e\":false,\"max_per_page\":1000,\"next_offset\":\"\",\"results\":1},\"results\":[{\"commit_id\":\"I\",\"id\":\"m\
ain\"}]}\n\
8 \n\
merge lakefs://quickstart/main lakefs://quickstart/main\n\
HTTP/1.1 200 OK|Content-Type: application/json|Content-Length: 17|Connection: close||{\"reference\":\"I\"}\n\
0 Merged: I|\n\
cherry-pick lakefs://quickstart/main lakefs://quickstart/main\n\
HTTP/1.1 201 Created|Content-Type: application/json|Content-Length: 131|Connection: close||{\"committer\":\"me\"\
,\"creation_date\":7,\"generation\":2,\"id\":\"I\",\"message\":\"M\",\"meta_range_id\":\"R\",\"metadata\":{\"k\"\
:\"v\"},\"parents\":[\"Q\"]}\n\
0 Commit: I|\n\
fs ls lakefs://quickstart/main\n\
HTTP/1.1 200 OK|Content-Type: application/json|Content-Length: 267|Connection: close||{\"pagination\":{\"has_mor\
e\":true,\"max_per_page\":1000,\"next_offset\":\"d/\",\"results\":2},\"results\":[{\"checksum\":\"C\",\"content_\
type\":\"T\",\"metadata\":{},\"mtime\":7,\"path\":\"a\",\"path_type\":\"object\",\"physical_address\":\"P\",\"si\
ze_bytes\":5},{\"path\":\"d/\",\"path_type\":\"common_prefix\"}]}\n\
0 object\t5\ta|prefix\td/|More after: d/|\n\
fs stat lakefs://quickstart/main/a\n\
HTTP/1.1 200 OK|Content-Type: application/json|Content-Length: 129|Connection: close||{\"checksum\":\"C\",\"cont\
ent_type\":\"T\",\"metadata\":{},\"mtime\":7,\"path\":\"a\",\"path_type\":\"object\",\"physical_address\":\"P\",\
\"size_bytes\":5}\n\
0 Path: a|Modified Time: 7|Size: 5|Checksum: C|Physical Address: P|Content-Type: T|\n\
fs cat lakefs://quickstart/main/a\n\
HTTP/1.1 200 OK|Content-Type: application/octet-stream|Content-Length: 3|Connection: close||any\n\
0 any\n\
fs upload lakefs://quickstart/main/a --text x\n\
HTTP/1.1 201 Created|Content-Type: application/json|Content-Length: 129|Connection: close||{\"checksum\":\"C\",\
\"content_type\":\"T\",\"metadata\":{},\"mtime\":7,\"path\":\"a\",\"path_type\":\"object\",\"physical_address\":\
\"P\",\"size_bytes\":5}\n\
0 Path: a|Size: 5|Checksum: C|\n\
fs upload lakefs://quickstart/main/a --text x\n\
HTTP/1.1 200 OK|Content-Type: application/json|Content-Length: 129|Connection: close||{\"checksum\":\"C\",\"cont\
ent_type\":\"T\",\"metadata\":{},\"mtime\":7,\"path\":\"a\",\"path_type\":\"object\",\"physical_address\":\"P\",\
\"size_bytes\":5}\n\
8 \n\
fs upload lakefs://quickstart/main/a --text x\n\
HTTP/1.1 201 Created|Content-Type: application/json|Content-Length: 131|Connection: close||{\"checksum\":\"C\",\
\"content_type\":\"T\",\"metadata\":{},\"mtime\":7.0,\"path\":\"a\",\"path_type\":\"object\",\"physical_address\
\":\"P\",\"size_bytes\":5}\n\
8 \n\
fs upload lakefs://quickstart/main/a --text x\n\
HTTP/1.1 201 Created|Content-Type: application/json|Content-Length: 132|Connection: close||{\"checksum\":\"C\",\
\"content_type\":\"T\",\"metadata\":{},\"mtime\":null,\"path\":\"a\",\"path_type\":\"object\",\"physical_address\
\":\"P\",\"size_bytes\":5}\n\
8 \n\
fs upload lakefs://quickstart/main/a --text x\n\
HTTP/1.1 201 Created|Content-Type: application/json|Content-Length: 115|Connection: close||{\"checksum\":\"C\",\
\"content_type\":\"T\",\"mtime\":7,\"path\":\"a\",\"path_type\":\"object\",\"physical_address\":\"P\",\"size_byt\
es\":5}\n\
8 \n\
fs upload lakefs://quickstart/main/a --text x\n\
HTTP/1.1 201 Created|Content-Type: application/json|Content-Length: 138|Connection: close||{\"more\":1,\"checksu\
m\":\"C\",\"content_type\":\"T\",\"metadata\":{},\"mtime\":7,\"path\":\"a\",\"path_type\":\"object\",\"physical_\
address\":\"P\",\"size_bytes\":5}\n\
0 Path: a|Size: 5|Checksum: C|\n\
fs download lakefs://quickstart/main/a f\n\
HTTP/1.1 200 OK|Content-Type: application/octet-stream|Content-Length: 3|Connection: close||any\n\
0 \n\
fs rm lakefs://quickstart/main/a\n\
HTTP/1.1 204 No Content|Connection: close||\n\
0 \n\
fs stage lakefs://quickstart/main/a --location x --size 1 --checksum c\n\
HTTP/1.1 201 Created|Content-Type: application/json|Content-Length: 129|Connection: close||{\"checksum\":\"C\",\
\"content_type\":\"T\",\"metadata\":{},\"mtime\":7,\"path\":\"a\",\"path_type\":\"object\",\"physical_address\":\
\"P\",\"size_bytes\":5}\n\
0 Path: a|Size: 5|Checksum: C|\n\
repo list\n\
HTTP/1.1 404 Not Found|Content-Type: application/json|Content-Length: 27|Connection: close||{\"message\":\"no su\
ch route\"}\n\
1 Error: no such route [404]|\n\
repo list\n\
HTTP/1.1 507 Insufficient Storage|Content-Type: application/json|Content-Length: 27|Connection: close||{\"messag\
e\":\"out of memory\"}\n\
7 Error: out of memory [507]|\n\
repo list\n\
HTTP/1.1 404 Not Found|Content-Type: application/json|Content-Length: 13|Connection: close||{\"message\":7}\n\
8 \n\
repo list\n\
HTTP/1.1 503 Service Unavailable|Content-Type: application/json|Content-Length: 2|Connection: close||no\n\
8 \n\
repo list\n\
HTTP/1.1 302 Found|Content-Type: application/json|Content-Length: 0|Connection: close||\n\
8 \n\
log lakefs://quickstart/main --since 1970-01-01T00:00:01Z\n\
HTTP/1.1 200 OK|Content-Type: application/json|Content-Length: 95|Connection: close||{\"pagination\":{\"has_more\
\":false,\"max_per_page\":1000,\"next_offset\":\"\",\"results\":0},\"results\":[]}\n\
0 \n\
log lakefs://quickstart/main --since 1969-12-31T23:59:59Z\n\
HTTP/1.1 200 OK|Content-Type: application/json|Content-Length: 363|Connection: close||{\"pagination\":{\"has_mor\
e\":false,\"max_per_page\":1000,\"next_offset\":\"\",\"results\":1},\"results\":[{\"committer\":\"lakefs\",\"cre\
ation_date\":0,\"generation\":1,\"id\":\"a52d600cf8f59ab14da57bd6123a7d90026916379eec82cad90310c61423b7c1\",\"me\
ssage\":\"Repository created\",\"meta_range_id\":\"957b88b12730e646e0f33d3618b77dfa579e8231e3c59c7104be7165611c8\
027\",\"metadata\":{},\"parents\":[]}]}\n\
0 ID: a52d600cf8f59ab14da57bd6123a7d90026916379eec82cad90310c61423b7c1|Author: lakefs|Date: 0|Message: Repositor\
y created||\n\
log lakefs://quickstart/main --since x\n\
HTTP/1.1 400 Bad Request|Content-Type: application/json|Content-Length: 30|Connection: close||{\"message\":\"ba\
d value: since\"}\n\
1 Error: bad value: since [400]|\n\
branch create lakefs://quickstart/2cf24dba5fb0a30e26e83b2ac5b9e29e1b161e5c1fa7425e73043362938b9824 --source lake\
fs://quickstart/main\n\
HTTP/1.1 400 Bad Request|Content-Type: application/json|Content-Length: 29|Connection: close||{\"message\":\"ba\
d value: name\"}\n\
1 Error: bad value: name [400]|\n\
repo list\n\
HTTP/1.1 404 Not Found|Content-Length: 28||{\"message\":\"no such route\"}\n\
no reply\n\
repo list\n\
HTTP/1.1 404 Not Found|Content-Length: 27|\n\
no reply\n\
repo list\n\
404 Not Found||\n\
no reply\n\
repo list\n\
HTTP/1.1 404 Not Found|Content-Length: 27||{\"message\":\"no such route\"}HTTP/1.1 204 No Content||\n\
1 Error: no such route [404]|\n\
";

// The bytes of a text of the table.
fn wire_bytes(alloc: Global, text: &str) -> Result<Vec<u8>, Fail> {
    let mut bytes = Vec::new(alloc);
    for byte in text.as_bytes() {
        match byte {
            b'|' => bytes.extend_from_slice(b"\r\n")?,
            _ => bytes.push(*byte)?,
        }
    }
    Ok(bytes)
}

// What is shown of the bytes that answer a line.
fn line_shown(alloc: Global, line: &str, wire: &str) -> Result<String, Fail> {
    let words = match line_words(alloc, line.as_bytes())? {
        LineWords::Words(words) => words,
        _ => return Ok(String::from_str(alloc, "no words")?),
    };
    let Ok(call) = request_of(alloc, words.as_slice()) else {
        return Ok(String::from_str(alloc, "no call")?);
    };
    let bytes = wire_bytes(alloc, wire)?;
    let Some(reply) = reply_in(alloc, bytes.as_slice())? else {
        return Ok(String::from_str(alloc, "no reply")?);
    };
    let shown = shown(alloc, &call, &reply)?;
    let mut text = format!(in alloc; "{} ", shown.status)?;
    for byte in shown.out.as_slice().iter().chain(shown.err.as_slice()) {
        text.push(if *byte == 10 { '|' } else { char::from(*byte) })?;
    }
    Ok(text)
}

#[test]
fn each_reply_is_shown(rt: HostRuntime) -> Result<(), Fail> {
    let alloc = rt.alloc();
    let mut rows = TABLE.lines();
    while let Some(line) = rows.next() {
        let wire = rows.next().ok_or("the bytes of a reply")?;
        let due = rows.next().ok_or("what is shown")?;
        let text = line_shown(alloc, line, wire)?;
        assert!(rt; text.as_str() == due, "{line} {wire} {text}");
    }
    Ok(())
}
