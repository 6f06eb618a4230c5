//! Messages as head and body, and what is told of each.

/// The head, without its last lines, and the body; the caller's id and the command, or the fault.
pub type Row = (&'static str, &'static str, &'static str);

pub const SETTINGS: &str = r#"issuers = ["ca.example"]
[ca]
issuer = "30123110300e06035504030c0747617465204341"
algorithm = "ecdsa-sha256"
key_id = "2222222222222222222222222222222222222222"
crl = "http://c.example/1.crl"
aia = "http://c.example/1.cer"
[suffixes]
rules = "com\nexample\n"
[[callers]]
id = "acme"
role = "account"
token = "acme-token"
thumb = "AAAAAAAAAAAAAAAAAAAAAAAAAAAAAAAAAAAAAAAAAAA"
[[callers]]
id = "op"
role = "operator"
token = "op-token"
[[callers]]
id = "p0"
role = "perspective"
token = "t0"
[[callers]]
id = "p1"
role = "perspective"
token = "t1"
[[callers]]
id = "p2"
role = "perspective"
token = "t2"
[[callers]]
id = "p3"
role = "perspective"
token = "t3"
[[callers]]
id = "p4"
role = "perspective"
token = "t4"
[[callers]]
id = "p5"
role = "perspective"
token = "t5"
[[perspectives]]
id = "p0"
primary = true
region = "arin"
at = [0, 0, 0]
[[perspectives]]
id = "p1"
primary = false
region = "ripe"
at = [1000, 0, 0]
[[perspectives]]
id = "p2"
primary = false
region = "ripe"
at = [2000, 0, 0]
[[perspectives]]
id = "p3"
primary = false
region = "apnic"
at = [3000, 0, 0]
[[perspectives]]
id = "p4"
primary = false
region = "apnic"
at = [4000, 0, 0]
[[perspectives]]
id = "p5"
primary = false
region = "arin"
at = [5000, 0, 0]
"#;

/// Routes and callers.
pub const HEADS: &[Row] = &[
    (
        "POST /orders/2/finalize HTTP/1.1\r\nx-gate-key: acme-token",
        "",
        "acme finalize 2",
    ),
    (
        "POST /orders/002/finalize HTTP/1.1\r\nx-gate-key: acme-token",
        "",
        "acme finalize 2",
    ),
    (
        "POST /orders/0000000000000000002/finalize HTTP/1.1\r\nx-gate-key: acme-token",
        "",
        "acme finalize 2",
    ),
    (
        "POST /orders/9999999999999999999/finalize HTTP/1.1\r\nx-gate-key: acme-token",
        "",
        "acme finalize 9999999999999999999",
    ),
    (
        "POST /orders/00000000000000000002/finalize HTTP/1.1\r\nx-gate-key: acme-token",
        "",
        "not found",
    ),
    (
        "POST /orders//finalize HTTP/1.1\r\nx-gate-key: acme-token",
        "",
        "not found",
    ),
    (
        "POST /orders/2x/finalize HTTP/1.1\r\nx-gate-key: acme-token",
        "",
        "not found",
    ),
    (
        "POST /orders/+2/finalize HTTP/1.1\r\nx-gate-key: acme-token",
        "",
        "not found",
    ),
    (
        "POST /orders/2/finalize/ HTTP/1.1\r\nx-gate-key: acme-token",
        "",
        "not found",
    ),
    (
        "POST /orders/2/finalize?x=1 HTTP/1.1\r\nx-gate-key: acme-token",
        "",
        "not found",
    ),
    (
        "POST /orders/2/finalise HTTP/1.1\r\nx-gate-key: acme-token",
        "",
        "not found",
    ),
    (
        "POST /orders/2 HTTP/1.1\r\nx-gate-key: acme-token",
        "",
        "not found",
    ),
    (
        "POST /orders/ HTTP/1.1\r\nx-gate-key: acme-token",
        "",
        "not found",
    ),
    (
        "POST /orders/finalize HTTP/1.1\r\nx-gate-key: acme-token",
        "",
        "not found",
    ),
    (
        "POST /orders/2/challenges/finalize HTTP/1.1\r\nx-gate-key: acme-token",
        "",
        "not found",
    ),
    (
        "POST /Orders HTTP/1.1\r\nx-gate-key: acme-token",
        "",
        "not found",
    ),
    (
        "POST /orders? HTTP/1.1\r\nx-gate-key: acme-token",
        "",
        "not found",
    ),
    ("POST / HTTP/1.1\r\nx-gate-key: acme-token", "", "not found"),
    (
        "GET /orders/2/finalize HTTP/1.1\r\nx-gate-key: acme-token",
        "",
        "not found",
    ),
    (
        "post /orders/2/finalize HTTP/1.1\r\nx-gate-key: acme-token",
        "",
        "not found",
    ),
    (
        "PUT /orders HTTP/1.1\r\nx-gate-key: acme-token",
        "",
        "not found",
    ),
    ("POST /orders/2/finalize HTTP/1.1", "", "no caller"),
    ("POST /nothing HTTP/1.1", "", "not found"),
    (
        "POST /orders/2/finalize HTTP/1.1\r\nx-gate-key: acme",
        "",
        "no caller",
    ),
    (
        "POST /orders/2/finalize HTTP/1.1\r\nx-gate-key: ACME-TOKEN",
        "",
        "no caller",
    ),
    (
        "POST /orders/2/finalize HTTP/1.1\r\nx-gate-key: ",
        "",
        "no caller",
    ),
    (
        "POST /orders/2/finalize HTTP/1.1\r\nx-gate-key: t1",
        "",
        "p1 finalize 2",
    ),
    (
        "POST /orders/2/finalize HTTP/1.1\r\nX-Gate-Key: op-token\r\nx-gate-key: acme-token",
        "",
        "op finalize 2",
    ),
    (
        "POST /orders/2/finalize HTTP/1.1\r\nX-GATE-KEY: nobody\r\nx-gate-key: acme-token",
        "",
        "no caller",
    ),
    ("POST /orders HTTP/1.1", "{", "no caller"),
    (
        "POST /orders/2/finalize HTTP/1.1\r\nx-gate-key: acme-token",
        "{",
        "acme finalize 2",
    ),
];

/// Bodies that say a command.
pub const COMMANDS: &[Row] = &[
    (
        "POST /orders HTTP/1.1\r\nx-gate-key: acme-token",
        "{\"common\":false,\"days\":47,\"key\":\"k1\",\"names\":[\"example.com\"],\"request\":\"cmVx\"}",
        "acme order k1 47 example.com req",
    ),
    (
        "POST /orders HTTP/1.1\r\nx-gate-key: acme-token",
        " { \"request\" : \"cmVx\",\n\"names\":[\"*.Example.com\",\"192.0.3.7\",\"2001:0db9:0000:0000:0000:0000:0000:0001\"],\"key\":\"k\\u0031\",\"days\":0,\"common\":true}\t",
        "acme order common k1 0 *.example.com 192.0.3.7 2001:0db9:0000:0000:0000:0000:0000:0001 req",
    ),
    (
        "POST /orders HTTP/1.1\r\nx-gate-key: acme-token",
        "{\"common\":false,\"days\":65535,\"key\":\"\",\"names\":[],\"request\":\"\"}",
        "acme order  65535 ",
    ),
    (
        "POST /orders HTTP/1.1\r\nx-gate-key: acme-token",
        "{\"common\":3,\"days\":47,\"key\":\"k\",\"names\":[\"a.example\"],\"request\":\"cmVx\",\"common\":true}",
        "acme order common k 47 a.example req",
    ),
    (
        "POST /orders/7/challenges HTTP/1.1\r\nx-gate-key: acme-token",
        "{\"key\":\"c\",\"method\":\"dns\",\"name\":\"example.com\"}",
        "acme dns c 7 example.com",
    ),
    (
        "POST /orders/7/challenges HTTP/1.1\r\nx-gate-key: acme-token",
        "{\"key\":\"c\",\"method\":\"web\",\"name\":\"192.0.3.7\"}",
        "acme web c 7 192.0.3.7",
    ),
    (
        "POST /orders/7/challenges HTTP/1.1\r\nx-gate-key: acme-token",
        "{\"key\":\"c\",\"method\":\"acme\",\"name\":\"a.example.com\"}",
        "acme acme c 7 a.example.com",
    ),
    (
        "POST /observations HTTP/1.1\r\nx-gate-key: t0",
        "{\"challenge\":3,\"dns\":{\"cnames\":[\"a.\",\"b.\"],\"prefix\":\"_acme\",\"txts\":[\"x\",\"y\"]},\"key\":\"v\",\"seen_at\":1790000000}",
        "p0 observe v 3 1790000000 dns _acme x y -> a. b.",
    ),
    (
        "POST /observations HTTP/1.1\r\nx-gate-key: t0",
        "{\"challenge\":3,\"key\":\"v\",\"seen_at\":18446744073709551615,\"web\":{\"body\":\"t\",\"hops\":[{\"location\":\"http://a/\",\"status\":301},{\"location\":\"\",\"status\":0}],\"status\":200,\"url\":\"http://b/\"}}",
        "p0 observe v 3 18446744073709551615 http://b/ 301 http://a/ 0  200 t",
    ),
    (
        "POST /caa HTTP/1.1\r\nx-gate-key: t0",
        "{\"answers\":[null,{\"rows\":[{\"flags\":128,\"tag\":\"issue\",\"value\":\"ca.example\"},{\"flags\":0,\"tag\":\"iodef\",\"value\":\"\"}],\"ttl\":4294967295},{\"rows\":[],\"ttl\":0}],\"key\":\"a\",\"name\":\"a.b.example.com\",\"order\":2,\"seen_at\":5}",
        "p0 caa a 2 a.b.example.com 5 failed 4294967295 128 issue ca.example 0 iodef  0",
    ),
    (
        "POST /blocks HTTP/1.1\r\nx-gate-key: op-token",
        "{\"key\":\"b\",\"spki\":\"c3BraQ==\"}",
        "op block b spki",
    ),
    (
        "POST /blocks HTTP/1.1\r\nx-gate-key: acme-token",
        "{\"key\":\"b\",\"spki\":\"c3BraQ==\"}",
        "acme block b spki",
    ),
];

/// Bodies that break a rule.
pub const BROKEN: &[Row] = &[
    ("POST /orders HTTP/1.1\r\nx-gate-key: acme-token", "", "W01"),
    (
        "POST /orders HTTP/1.1\r\nx-gate-key: acme-token",
        "x",
        "W01",
    ),
    (
        "POST /orders HTTP/1.1\r\nx-gate-key: acme-token",
        "{",
        "W01",
    ),
    (
        "POST /orders HTTP/1.1\r\nx-gate-key: acme-token",
        "{\"common\":false,}",
        "W01",
    ),
    (
        "POST /orders HTTP/1.1\r\nx-gate-key: acme-token",
        "{\"common\":false,\"days\":47,\"key\":\"k1\",\"names\":[\"example.com\"],\"request\":\"cmVx\"}x",
        "W01",
    ),
    (
        "POST /orders HTTP/1.1\r\nx-gate-key: acme-token",
        "{\"common\":false,\"days\":01,\"key\":\"k1\",\"names\":[\"example.com\"],\"request\":\"cmVx\"}",
        "W01",
    ),
    (
        "POST /orders HTTP/1.1\r\nx-gate-key: acme-token",
        "{\"common\":false,\"days\":1e999,\"key\":\"k1\",\"names\":[\"example.com\"],\"request\":\"cmVx\"}",
        "W01",
    ),
    (
        "POST /orders HTTP/1.1\r\nx-gate-key: acme-token",
        "{\"common\":false,\"days\":47,\"key\":\"\\ud800\",\"names\":[\"example.com\"],\"request\":\"cmVx\"}",
        "W01",
    ),
    (
        "POST /orders HTTP/1.1\r\nx-gate-key: acme-token",
        "[]",
        "W02",
    ),
    (
        "POST /orders HTTP/1.1\r\nx-gate-key: acme-token",
        "null",
        "W02",
    ),
    (
        "POST /orders HTTP/1.1\r\nx-gate-key: acme-token",
        "3",
        "W02",
    ),
    (
        "POST /orders HTTP/1.1\r\nx-gate-key: acme-token",
        "\"\"",
        "W02",
    ),
    (
        "POST /orders HTTP/1.1\r\nx-gate-key: acme-token",
        "{}",
        "W02",
    ),
    (
        "POST /orders HTTP/1.1\r\nx-gate-key: acme-token",
        "{\"common\":false,\"days\":47,\"key\":\"k1\",\"names\":[\"example.com\"],\"request\":\"cmVx\",\"x\":1}",
        "W02",
    ),
    (
        "POST /orders HTTP/1.1\r\nx-gate-key: acme-token",
        "{\"common\":false,\"key\":\"k1\",\"names\":[\"example.com\"],\"request\":\"cmVx\"}",
        "W02",
    ),
    (
        "POST /orders HTTP/1.1\r\nx-gate-key: acme-token",
        "{\"common\":false,\"Days\":47,\"key\":\"k1\",\"names\":[\"example.com\"],\"request\":\"cmVx\"}",
        "W02",
    ),
    (
        "POST /orders HTTP/1.1\r\nx-gate-key: acme-token",
        "{\"common\":3,\"days\":47,\"names\":[\"example.com\"],\"request\":\"cmVx\"}",
        "W02",
    ),
    (
        "POST /orders HTTP/1.1\r\nx-gate-key: acme-token",
        "{\"common\":false,\"days\":47,\"names\":[\"example.com\"],\"request\":\"!\"}",
        "W02",
    ),
    (
        "POST /orders HTTP/1.1\r\nx-gate-key: acme-token",
        "{\"common\":0,\"days\":47,\"key\":\"k1\",\"names\":[\"example.com\"],\"request\":\"cmVx\"}",
        "W03",
    ),
    (
        "POST /orders HTTP/1.1\r\nx-gate-key: acme-token",
        "{\"common\":false,\"days\":\"47\",\"key\":\"k1\",\"names\":[\"example.com\"],\"request\":\"cmVx\"}",
        "W03",
    ),
    (
        "POST /orders HTTP/1.1\r\nx-gate-key: acme-token",
        "{\"common\":false,\"days\":47,\"key\":1,\"names\":[\"example.com\"],\"request\":\"cmVx\"}",
        "W03",
    ),
    (
        "POST /orders HTTP/1.1\r\nx-gate-key: acme-token",
        "{\"common\":false,\"days\":47,\"key\":\"k1\",\"names\":\"example.com\",\"request\":\"cmVx\"}",
        "W03",
    ),
    (
        "POST /orders HTTP/1.1\r\nx-gate-key: acme-token",
        "{\"common\":false,\"days\":47,\"key\":\"k1\",\"names\":{},\"request\":\"cmVx\"}",
        "W03",
    ),
    (
        "POST /orders HTTP/1.1\r\nx-gate-key: acme-token",
        "{\"common\":false,\"days\":47,\"key\":\"k1\",\"names\":[1],\"request\":\"cmVx\"}",
        "W03",
    ),
    (
        "POST /orders HTTP/1.1\r\nx-gate-key: acme-token",
        "{\"common\":false,\"days\":47,\"key\":\"k1\",\"names\":[\"example.com\"],\"request\":null}",
        "W03",
    ),
    (
        "POST /orders HTTP/1.1\r\nx-gate-key: acme-token",
        "{\"common\":false,\"days\":47,\"key\":1,\"names\":[\"example.com\"],\"request\":\"!\"}",
        "W03",
    ),
    (
        "POST /orders HTTP/1.1\r\nx-gate-key: acme-token",
        "{\"common\":false,\"days\":47,\"key\":\"k1\",\"names\":[\"-\",1],\"request\":\"cmVx\"}",
        "W03",
    ),
    (
        "POST /orders HTTP/1.1\r\nx-gate-key: acme-token",
        "{\"common\":false,\"days\":47,\"key\":\"k1\",\"names\":[\"example.com\"],\"request\":\"cmV\"}",
        "W04",
    ),
    (
        "POST /orders HTTP/1.1\r\nx-gate-key: acme-token",
        "{\"common\":false,\"days\":47,\"key\":\"k1\",\"names\":[\"example.com\"],\"request\":\"cmV=\"}",
        "W04",
    ),
    (
        "POST /orders HTTP/1.1\r\nx-gate-key: acme-token",
        "{\"common\":false,\"days\":47,\"key\":\"k1\",\"names\":[\"example.com\"],\"request\":\"cm-_\"}",
        "W04",
    ),
    (
        "POST /orders HTTP/1.1\r\nx-gate-key: acme-token",
        "{\"common\":false,\"days\":47,\"key\":\"k1\",\"names\":[\"example.com\"],\"request\":\"QR==\"}",
        "W04",
    ),
    (
        "POST /orders HTTP/1.1\r\nx-gate-key: acme-token",
        "{\"common\":false,\"days\":47,\"key\":\"k1\",\"names\":[\"example.com\"],\"request\":\"cmVx\\n\"}",
        "W04",
    ),
    (
        "POST /orders HTTP/1.1\r\nx-gate-key: acme-token",
        "{\"common\":false,\"days\":4.5,\"key\":\"k1\",\"names\":[\"-\"],\"request\":\"!\"}",
        "W04",
    ),
    (
        "POST /orders HTTP/1.1\r\nx-gate-key: acme-token",
        "{\"common\":false,\"days\":47,\"key\":\"k1\",\"names\":[\"\"],\"request\":\"cmVx\"}",
        "W05",
    ),
    (
        "POST /orders HTTP/1.1\r\nx-gate-key: acme-token",
        "{\"common\":false,\"days\":47,\"key\":\"k1\",\"names\":[\"-a.example\"],\"request\":\"cmVx\"}",
        "W05",
    ),
    (
        "POST /orders HTTP/1.1\r\nx-gate-key: acme-token",
        "{\"common\":false,\"days\":47,\"key\":\"k1\",\"names\":[\"a..b\"],\"request\":\"cmVx\"}",
        "W05",
    ),
    (
        "POST /orders HTTP/1.1\r\nx-gate-key: acme-token",
        "{\"common\":false,\"days\":47,\"key\":\"k1\",\"names\":[\"1.2.3\"],\"request\":\"cmVx\"}",
        "W05",
    ),
    (
        "POST /orders HTTP/1.1\r\nx-gate-key: acme-token",
        "{\"common\":false,\"days\":47,\"key\":\"k1\",\"names\":[\"a.example\",\"_\"],\"request\":\"cmVx\"}",
        "W05",
    ),
    (
        "POST /orders HTTP/1.1\r\nx-gate-key: acme-token",
        "{\"common\":false,\"days\":-1,\"key\":\"k1\",\"names\":[\"-\"],\"request\":\"cmVx\"}",
        "W05",
    ),
    (
        "POST /orders HTTP/1.1\r\nx-gate-key: acme-token",
        "{\"common\":false,\"days\":-1,\"key\":\"k1\",\"names\":[\"example.com\"],\"request\":\"cmVx\"}",
        "W06",
    ),
    (
        "POST /orders HTTP/1.1\r\nx-gate-key: acme-token",
        "{\"common\":false,\"days\":47.0,\"key\":\"k1\",\"names\":[\"example.com\"],\"request\":\"cmVx\"}",
        "W06",
    ),
    (
        "POST /orders HTTP/1.1\r\nx-gate-key: acme-token",
        "{\"common\":false,\"days\":4e1,\"key\":\"k1\",\"names\":[\"example.com\"],\"request\":\"cmVx\"}",
        "W06",
    ),
    (
        "POST /orders HTTP/1.1\r\nx-gate-key: acme-token",
        "{\"common\":false,\"days\":-0,\"key\":\"k1\",\"names\":[\"example.com\"],\"request\":\"cmVx\"}",
        "W06",
    ),
    (
        "POST /orders HTTP/1.1\r\nx-gate-key: acme-token",
        "{\"common\":false,\"days\":65536,\"key\":\"k1\",\"names\":[\"example.com\"],\"request\":\"cmVx\"}",
        "W06",
    ),
    (
        "POST /orders HTTP/1.1\r\nx-gate-key: acme-token",
        "{\"common\":false,\"days\":18446744073709551616,\"key\":\"k1\",\"names\":[\"example.com\"],\"request\":\"cmVx\"}",
        "W06",
    ),
    (
        "POST /orders HTTP/1.1\r\nx-gate-key: acme-token",
        "{\"common\":false,\"days\":47,\"key\":\"kkkkkkkkkkkkkkkkkkkkkkkkkkkkkkkkkkkkkkkkkkkkkkkkkkkkkkkkkkkkkkkkkkkkkkkkkkkkkkkkkkkkkkkkkkkkkkkkkkkkkkkkkkkkkkkkkkkkkkkkkkkkkkkkkkkkkkkkkkkkkkkkkkkkkkkkkkkkkkkkkkkkkkkkkkkkkkkkkkkkkkkkkkkkkkkkkkkkkkkkkkkkkkkkkkkkkkkkkkkkkkkkkkkkkkkkkkkkkkkkkkkkkkkkkkkkkkkk\",\"names\":[\"example.com\"],\"request\":\"cmVx\"}",
        "W06",
    ),
    (
        "POST /orders/7/challenges HTTP/1.1\r\nx-gate-key: acme-token",
        "{\"key\":\"c\",\"method\":\"DNS\",\"name\":\"example.com\"}",
        "W03",
    ),
    (
        "POST /orders/7/challenges HTTP/1.1\r\nx-gate-key: acme-token",
        "{\"key\":\"c\",\"method\":\"\",\"name\":\"example.com\"}",
        "W03",
    ),
    (
        "POST /orders/7/challenges HTTP/1.1\r\nx-gate-key: acme-token",
        "{\"key\":\"c\",\"method\":null,\"name\":\"example.com\"}",
        "W03",
    ),
    (
        "POST /orders/7/challenges HTTP/1.1\r\nx-gate-key: acme-token",
        "{\"key\":\"c\",\"method\":\"dns\",\"name\":\"a_b\"}",
        "W05",
    ),
    (
        "POST /orders/7/challenges HTTP/1.1\r\nx-gate-key: acme-token",
        "{\"key\":\"c\",\"method\":\"tls\",\"name\":\"_\"}",
        "W03",
    ),
    (
        "POST /observations HTTP/1.1\r\nx-gate-key: t0",
        "{\"challenge\":3,\"key\":\"v\",\"seen_at\":5}",
        "W02",
    ),
    (
        "POST /observations HTTP/1.1\r\nx-gate-key: t0",
        "{\"challenge\":3,\"key\":\"v\",\"seen_at\":5,\"dns\":{\"cnames\":[],\"prefix\":\"\",\"txts\":[]},\"web\":{\"body\":\"t\",\"hops\":[{\"location\":\"http://a/\",\"status\":301}],\"status\":200,\"url\":\"u\"}}",
        "W02",
    ),
    (
        "POST /observations HTTP/1.1\r\nx-gate-key: t0",
        "{\"challenge\":3,\"key\":\"v\",\"seen_at\":5,\"dns\":3}",
        "W03",
    ),
    (
        "POST /observations HTTP/1.1\r\nx-gate-key: t0",
        "{\"challenge\":3,\"key\":\"v\",\"seen_at\":5,\"dns\":[]}",
        "W03",
    ),
    (
        "POST /observations HTTP/1.1\r\nx-gate-key: t0",
        "{\"challenge\":3,\"key\":\"v\",\"seen_at\":5,\"dns\":{}}",
        "W02",
    ),
    (
        "POST /observations HTTP/1.1\r\nx-gate-key: t0",
        "{\"challenge\":3,\"key\":\"v\",\"seen_at\":5,\"web\":{}}",
        "W02",
    ),
    (
        "POST /observations HTTP/1.1\r\nx-gate-key: t0",
        "{\"challenge\":3,\"key\":\"v\",\"seen_at\":5,\"dns\":{\"cnames\":[],\"txts\":[]}}",
        "W02",
    ),
    (
        "POST /observations HTTP/1.1\r\nx-gate-key: t0",
        "{\"challenge\":3,\"key\":\"v\",\"seen_at\":5,\"dns\":{\"cnames\":[],\"prefix\":\"\",\"txts\":[],\"x\":1}}",
        "W02",
    ),
    (
        "POST /observations HTTP/1.1\r\nx-gate-key: t0",
        "{\"challenge\":3,\"key\":\"v\",\"seen_at\":5,\"dns\":{\"cnames\":[],\"prefix\":\"\",\"txts\":[1]}}",
        "W03",
    ),
    (
        "POST /observations HTTP/1.1\r\nx-gate-key: t0",
        "{\"challenge\":3,\"key\":\"v\",\"seen_at\":5,\"web\":{\"body\":\"t\",\"hops\":[{\"location\":\"http://a/\",\"status\":301,\"x\":1}],\"status\":200,\"url\":\"u\"}}",
        "W02",
    ),
    (
        "POST /observations HTTP/1.1\r\nx-gate-key: t0",
        "{\"challenge\":3,\"key\":\"v\",\"seen_at\":5,\"web\":{\"body\":\"t\",\"hops\":[3,{\"location\":\"http://a/\",\"status\":301}],\"status\":200,\"url\":\"u\"}}",
        "W03",
    ),
    (
        "POST /observations HTTP/1.1\r\nx-gate-key: t0",
        "{\"challenge\":3,\"key\":\"v\",\"seen_at\":5,\"web\":{\"body\":\"t\",\"hops\":[3,{}],\"status\":200,\"url\":\"u\"}}",
        "W02",
    ),
    (
        "POST /observations HTTP/1.1\r\nx-gate-key: t0",
        "{\"challenge\":3,\"key\":\"v\",\"seen_at\":5,\"web\":{\"body\":\"t\",\"hops\":[{\"location\":\"http://a/\",\"status\":65536}],\"status\":200,\"url\":\"u\"}}",
        "W06",
    ),
    (
        "POST /observations HTTP/1.1\r\nx-gate-key: t0",
        "{\"challenge\":3,\"key\":\"v\",\"seen_at\":5,\"web\":{\"body\":\"t\",\"hops\":[{\"location\":\"http://a/\",\"status\":301}],\"status\":70000,\"url\":\"u\"}}",
        "W06",
    ),
    (
        "POST /observations HTTP/1.1\r\nx-gate-key: t0",
        "{\"challenge\":3,\"key\":\"v\",\"seen_at\":5,\"web\":{\"body\":\"t\",\"hops\":[{\"location\":\"http://a/\",\"status\":30.1}],\"status\":200,\"url\":\"u\"}}",
        "W06",
    ),
    (
        "POST /observations HTTP/1.1\r\nx-gate-key: t0",
        "{\"challenge\":3.0,\"key\":\"v\",\"seen_at\":5,\"dns\":{\"cnames\":[],\"prefix\":\"\",\"txts\":[]}}",
        "W06",
    ),
    (
        "POST /observations HTTP/1.1\r\nx-gate-key: t0",
        "{\"challenge\":\"3\",\"key\":\"v\",\"seen_at\":5,\"dns\":{\"cnames\":[],\"prefix\":\"\",\"txts\":[]}}",
        "W03",
    ),
    (
        "POST /observations HTTP/1.1\r\nx-gate-key: t0",
        "{\"challenge\":-3,\"key\":\"v\",\"seen_at\":5,\"dns\":{\"cnames\":[],\"prefix\":\"\",\"txts\":[]}}",
        "W06",
    ),
    (
        "POST /observations HTTP/1.1\r\nx-gate-key: t0",
        "{\"challenge\":3,\"key\":\"v\",\"seen_at\":5,\"dns\":{\"cnames\":[],\"prefix\":\"pppppppppppppppppppppppppppppppppppppppppppppppppppppppppppppppppppppppppppppppppppppppppppppppppppppppppppppppppppppppppppppppppppppppppppppppppppppppppppppppppppppppppppppppppppppppppppppppppppppppppppppppppppppppppppppppppppppppppppppppppppppppppppppppp\",\"txts\":[]}}",
        "W06",
    ),
    (
        "POST /observations HTTP/1.1\r\nx-gate-key: t0",
        "{\"challenge\":3,\"key\":\"v\",\"seen_at\":5,\"dns\":{\"cnames\":[],\"prefix\":\"\",\"txts\":[\"\",\"\",\"\",\"\",\"\",\"\",\"\",\"\",\"\",\"\",\"\",\"\",\"\",\"\",\"\",\"\",\"\",\"\",\"\",\"\",\"\",\"\",\"\",\"\",\"\",\"\",\"\",\"\",\"\",\"\",\"\",\"\",\"\",\"\",\"\",\"\",\"\",\"\",\"\",\"\",\"\",\"\",\"\",\"\",\"\",\"\",\"\",\"\",\"\",\"\",\"\",\"\",\"\",\"\",\"\",\"\",\"\",\"\",\"\",\"\",\"\",\"\",\"\",\"\",\"\",\"\",\"\",\"\",\"\",\"\",\"\",\"\",\"\",\"\",\"\",\"\",\"\",\"\",\"\",\"\",\"\",\"\",\"\",\"\",\"\",\"\",\"\",\"\",\"\",\"\",\"\",\"\",\"\",\"\",\"\",\"\",\"\",\"\",\"\",\"\",\"\",\"\",\"\",\"\",\"\",\"\",\"\",\"\",\"\",\"\",\"\",\"\",\"\",\"\",\"\",\"\",\"\",\"\",\"\",\"\",\"\",\"\",\"\",\"\",\"\",\"\",\"\",\"\",\"\",\"\",\"\",\"\",\"\",\"\",\"\",\"\",\"\",\"\",\"\",\"\",\"\",\"\",\"\",\"\",\"\",\"\",\"\",\"\",\"\",\"\",\"\",\"\",\"\",\"\",\"\",\"\",\"\",\"\",\"\",\"\",\"\",\"\",\"\",\"\",\"\",\"\",\"\",\"\",\"\",\"\",\"\",\"\",\"\",\"\",\"\",\"\",\"\",\"\",\"\",\"\",\"\",\"\",\"\",\"\",\"\",\"\",\"\",\"\",\"\",\"\",\"\",\"\",\"\",\"\",\"\",\"\",\"\",\"\",\"\",\"\",\"\",\"\",\"\",\"\",\"\",\"\",\"\",\"\",\"\",\"\",\"\",\"\",\"\",\"\",\"\",\"\",\"\",\"\",\"\",\"\",\"\",\"\",\"\",\"\",\"\",\"\",\"\",\"\",\"\",\"\",\"\",\"\",\"\",\"\",\"\",\"\",\"\",\"\",\"\",\"\",\"\",\"\",\"\",\"\",\"\",\"\",\"\",\"\",\"\",\"\",\"\",\"\",\"\",\"\",\"\",\"\"]}}",
        "W06",
    ),
    (
        "POST /caa HTTP/1.1\r\nx-gate-key: t0",
        "{\"answers\":[false,{\"rows\":[{\"flags\":0,\"tag\":\"issue\",\"value\":\"\"}],\"ttl\":60}],\"key\":\"a\",\"name\":\"example.com\",\"order\":2,\"seen_at\":5}",
        "W03",
    ),
    (
        "POST /caa HTTP/1.1\r\nx-gate-key: t0",
        "{\"answers\":[{},{\"rows\":[{\"flags\":0,\"tag\":\"issue\",\"value\":\"\"}],\"ttl\":60}],\"key\":\"a\",\"name\":\"example.com\",\"order\":2,\"seen_at\":5}",
        "W02",
    ),
    (
        "POST /caa HTTP/1.1\r\nx-gate-key: t0",
        "{\"answers\":[null,{\"rows\":[{\"flags\":256,\"tag\":\"issue\",\"value\":\"\"}],\"ttl\":60}],\"key\":\"a\",\"name\":\"example.com\",\"order\":2,\"seen_at\":5}",
        "W06",
    ),
    (
        "POST /caa HTTP/1.1\r\nx-gate-key: t0",
        "{\"answers\":[null,{\"rows\":[{\"flags\":0,\"tag\":\"issue\",\"value\":\"\"}],\"ttl\":4294967296}],\"key\":\"a\",\"name\":\"example.com\",\"order\":2,\"seen_at\":5}",
        "W06",
    ),
    (
        "POST /caa HTTP/1.1\r\nx-gate-key: t0",
        "{\"answers\":[null,{\"rows\":[{\"flags\":0,\"value\":\"\"}],\"ttl\":60}],\"key\":\"a\",\"name\":\"example.com\",\"order\":2,\"seen_at\":5}",
        "W02",
    ),
    (
        "POST /caa HTTP/1.1\r\nx-gate-key: t0",
        "{\"answers\":[null,{\"rows\":[{\"flags\":0,\"tag\":1,\"value\":\"\"}],\"ttl\":60}],\"key\":\"a\",\"name\":\"example.com\",\"order\":2,\"seen_at\":5}",
        "W03",
    ),
    (
        "POST /caa HTTP/1.1\r\nx-gate-key: t0",
        "{\"answers\":[null,{\"rows\":[[],{\"flags\":0,\"tag\":\"issue\",\"value\":\"\"}],\"ttl\":60}],\"key\":\"a\",\"name\":\"example.com\",\"order\":2,\"seen_at\":5}",
        "W03",
    ),
    (
        "POST /caa HTTP/1.1\r\nx-gate-key: t0",
        "{\"answers\":[{\"rows\":3,\"ttl\":1.5},{\"rows\":[{\"flags\":0,\"tag\":\"issue\",\"value\":\"\"}],\"ttl\":60}],\"key\":\"a\",\"name\":\"example.com\",\"order\":2,\"seen_at\":5}",
        "W03",
    ),
    (
        "POST /caa HTTP/1.1\r\nx-gate-key: t0",
        "{\"answers\":[null,{\"rows\":[{\"flags\":0,\"tag\":\"issue\",\"value\":\"\"}],\"ttl\":60}],\"key\":\"a\",\"name\":\"x_\",\"order\":2,\"seen_at\":5}",
        "W05",
    ),
    (
        "POST /caa HTTP/1.1\r\nx-gate-key: t0",
        "{\"answers\":[null,{\"rows\":[{\"flags\":0,\"tag\":\"issue\",\"value\":\"\"}],\"ttl\":60}],\"key\":\"a\",\"name\":\"example.com\",\"order\":null,\"seen_at\":5}",
        "W03",
    ),
    (
        "POST /blocks HTTP/1.1\r\nx-gate-key: op-token",
        "{\"key\":\"b\",\"spki\":\"c3BraQ\"}",
        "W04",
    ),
    (
        "POST /blocks HTTP/1.1\r\nx-gate-key: op-token",
        "{\"key\":\"b\"}",
        "W02",
    ),
    (
        "POST /blocks HTTP/1.1\r\nx-gate-key: op-token",
        "{\"key\":null,\"spki\":\"c3BraQ==\"}",
        "W03",
    ),
];
