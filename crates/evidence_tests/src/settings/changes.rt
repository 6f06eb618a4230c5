//! The example of a file, with one change each: the rule and the item that it then gets, 0 for a file that is read.

/// A text of the example, what stands in its place, and the rule and the item.
pub type Row = (&'static str, &'static str, u8, u64);

/// A text of the example, the front and the repeated piece of what stands in its place, how often the piece stands
/// there, and the rule and the item.
pub type Long = (&'static str, &'static str, &'static str, usize, u8, u64);

pub const EXAMPLE: &str = r#"issuers = ["ca.example"]
[ca]
issuer = "30123110300e06035504030c0747617465204341"
algorithm = "ecdsa-sha256"
key_id = "2222222222222222222222222222222222222222"
crl = "http://c.example/1.crl"
aia = "http://c.example/1.cer"
[suffixes]
rules = "com\nexample\n"
[[callers]]
id = "acme"
role = "account"
token = "acme-token"
thumb = "AAAAAAAAAAAAAAAAAAAAAAAAAAAAAAAAAAAAAAAAAAA"
[[callers]]
id = "op"
role = "operator"
token = "op-token"
[[callers]]
id = "p0"
role = "perspective"
token = "t0"
[[callers]]
id = "p1"
role = "perspective"
token = "t1"
[[callers]]
id = "p2"
role = "perspective"
token = "t2"
[[callers]]
id = "p3"
role = "perspective"
token = "t3"
[[callers]]
id = "p4"
role = "perspective"
token = "t4"
[[callers]]
id = "p5"
role = "perspective"
token = "t5"
[[perspectives]]
id = "p0"
primary = true
region = "arin"
at = [0, 0, 0]
[[perspectives]]
id = "p1"
primary = false
region = "ripe"
at = [1000, 0, 0]
[[perspectives]]
id = "p2"
primary = false
region = "ripe"
at = [2000, 0, 0]
[[perspectives]]
id = "p3"
primary = false
region = "apnic"
at = [3000, 0, 0]
[[perspectives]]
id = "p4"
primary = false
region = "apnic"
at = [4000, 0, 0]
[[perspectives]]
id = "p5"
primary = false
region = "arin"
at = [5000, 0, 0]
"#;

pub const CHANGES: [Row; 94] = [
    // members that are missing, strange or of the wrong kind
    ("issuers = [\"ca.example\"]\n", "", 3, 0),
    ("issuers", "issuer", 3, 0),
    ("[\"ca.example\"]", "\"ca.example\"", 3, 0),
    ("[\"ca.example\"]", "[\"ca.example\", 1]", 3, 0),
    ("issuer = \"30", "more = 1\nissuer = \"30", 3, 0),
    ("algorithm = \"ecdsa-sha256\"\n", "", 3, 0),
    ("\"2222222222222222222222222222222222222222\"", "22", 3, 0),
    (
        "aia = \"http://c.example/1.cer\"\n",
        "aia = \"http://c.example/1.cer\"\nocsp = \"\"\n",
        3,
        0,
    ),
    ("[suffixes]\nrules = \"com\\nexample\\n\"\n", "", 3, 0),
    ("\"com\\nexample\\n\"", "[\"com\"]", 3, 0),
    ("[suffixes]\n", "[suffixes]\nmore = true\n", 3, 0),
    ("[suffixes]\n", "[more]\n[suffixes]\n", 3, 0),
    // the same in rows
    ("id = \"acme\"\n", "", 3, 0),
    ("token = \"t5\"\n", "", 3, 0),
    ("token = \"t5\"\n", "token = \"t5\"\nmore = 1\n", 3, 0),
    ("role = \"operator\"", "role = 1", 3, 0),
    (
        "token = \"op-token\"\n",
        "token = \"op-token\"\nthumb = \"AAAAAAAAAAAAAAAAAAAAAAAAAAAAAAAAAAAAAAAAAAA\"\n",
        3,
        0,
    ),
    ("role = \"account\"", "role = \"guest\"", 3, 0),
    ("thumb = \"A", "thumb = 1 # A", 3, 0),
    ("primary = true", "primary = 1", 3, 0),
    ("primary = true\n", "", 3, 0),
    ("at = [5000, 0, 0]\n", "at = [5000, 0, 0]\nmore = 1\n", 3, 0),
    ("at = [0, 0, 0]", "at = [0, 0]", 3, 0),
    ("at = [5000, 0, 0]", "at = [5000, 0, 0, 0]", 3, 0),
    ("at = [5000, 0, 0]", "at = [5000, 0.5, 0]", 3, 0),
    // texts that are no TOML
    ("[ca]", "[ca", 2, 0),
    (
        "crl = \"http://c.example/1.crl\"\n",
        "crl = \"http://c.example/1.crl\"\ncrl = \"http://c.example/1.crl\"\n",
        2,
        0,
    ),
    ("token = \"t5\"\n", "token = \"t5\"\ntoken = \"t5\"\n", 2, 0),
    ("at = [0, 0, 0]", "at = [9223372036854775808, 0, 0]", 2, 0),
    ("\"com\\nexample\\n\"", "\"com\\qexample\\n\"", 2, 0),
    // what the authority is called and signs with
    ("\"3012", "\"3g12", 4, 0),
    ("4341\"", "434\"", 4, 0),
    (
        "\"2222222222222222222222222222222222222222\"",
        "\"222222222222222222222222222222222222222x\"",
        4,
        0,
    ),
    ("\"30123110300e06035504030c0747617465204341\"", "\"\"", 5, 0),
    (
        "\"30123110300e06035504030c0747617465204341\"",
        "\"3010300e06035504030c0747617465204341\"",
        0,
        0,
    ),
    ("\"3012", "\"3112", 5, 0),
    ("4341\"", "4341ff\"", 5, 0),
    ("\"3012", "\"3013", 5, 0),
    (
        "\"30123110300e06035504030c0747617465204341\"",
        "\"0500\"",
        5,
        0,
    ),
    ("ecdsa-sha256", "ecdsa-sha512", 6, 0),
    ("ecdsa-sha256", "rsa-sha256", 0, 0),
    ("ecdsa-sha256", "ecdsa-sha384", 0, 0),
    (
        "\"2222222222222222222222222222222222222222\"",
        "\"22222222222222222222222222222222222222\"",
        7,
        0,
    ),
    (
        "\"2222222222222222222222222222222222222222\"",
        "\"222222222222222222222222222222222222222222\"",
        7,
        0,
    ),
    ("\"2222222222222222222222222222222222222222\"", "\"\"", 7, 0),
    ("http://c.example/1.crl", "https://c.example/1.crl", 8, 0),
    ("http://c.example/1.crl", "http://c.example/1 crl", 8, 0),
    ("http://c.example/1.cer", "ldap://c.example/1.cer", 8, 0),
    ("http://c.example/1.cer", "http://c.example/é.cer", 8, 0),
    // lines that are no suffix rules
    ("com\\n", "com.\\n", 9, 1),
    ("example\\n", "example\\n// and\\n\\nb_d\\n", 9, 5),
    ("com\\nexample\\n", "", 0, 0),
    ("com\\nexample\\n", "*.com\\n!www.com \\n", 0, 0),
    // callers that offend
    ("id = \"acme\"", "id = \"\"", 10, 1),
    ("id = \"op\"", "id = \"o p\"", 10, 2),
    ("token = \"op-token\"", "token = \"\"", 10, 2),
    ("token = \"t5\"", "token = \"t\\u007f5\"", 10, 8),
    ("id = \"op\"", "id = \"acme\"", 10, 2),
    ("token = \"t4\"", "token = \"t3\"", 10, 7),
    ("role = \"operator\"", "role = \"owner\"", 10, 2),
    (
        "role = \"perspective\"\ntoken = \"t5\"",
        "role = \"perspectives\"\ntoken = \"t5\"",
        10,
        8,
    ),
    ("AAA\"", "AA\"", 10, 1),
    ("AAA\"", "AA+\"", 10, 1),
    ("AAA\"", "-_9\"", 0, 0),
    ("id = \"p5\"\nrole", "id = \"p6\"\nrole", 10, 8),
    ("id = \"p0\"\nrole", "id = \"p7\"\nrole", 10, 3),
    (
        "thumb = \"AAAAAAAAAAAAAAAAAAAAAAAAAAAAAAAAAAAAAAAAAAA\"\n",
        "",
        0,
        0,
    ),
    (
        "thumb = \"AAAAAAAAAAAAAAAAAAAAAAAAAAAAAAAAAAAAAAAAAAA\"",
        "thumb = \"\"",
        10,
        1,
    ),
    // regions that are unknown, and perspectives that are no panel
    (
        "region = \"arin\"\nat = [0",
        "region = \"mars\"\nat = [0",
        11,
        1,
    ),
    (
        "region = \"arin\"\nat = [5",
        "region = \"ARIN\"\nat = [5",
        11,
        6,
    ),
    ("at = [5000, 0, 0]", "at = [4499, 0, 0]", 11, 6),
    ("at = [5000, 0, 0]", "at = [4500, 0, 0]", 0, 0),
    ("at = [1000, 0, 0]", "at = [499, 0, 0]", 11, 2),
    ("at = [5000, 0, 0]", "at = [5000, 0, -20001]", 11, 6),
    ("at = [0, 0, 0]", "at = [0, 20001, 0]", 11, 1),
    ("primary = true", "primary = false", 11, 0),
    (
        "primary = false\nregion = \"arin\"",
        "primary = true\nregion = \"arin\"",
        11,
        0,
    ),
    (
        "at = [5000, 0, 0]\n",
        "at = [5000, 0, 0]\n[[perspectives]]\nid = \"p0\"\nprimary = false\nregion = \"lacnic\"\nat = [9000, 0, 0]\n",
        11,
        0,
    ),
    (
        "at = [5000, 0, 0]\n",
        "at = [5000, 0, 0]\n[[perspectives]]\nid = \"p6\"\nprimary = true\nregion = \"moon\"\nat = [9000, 0, 0]\n",
        11,
        7,
    ),
    (
        "at = [5000, 0, 0]\n",
        "at = [5000, 0, 0]\n[[perspectives]]\nid = \"p6\"\nprimary = false\nregion = \"afrinic\"\nat = [0, -20000, 0]\n",
        0,
        0,
    ),
    // names of the authority
    ("[\"ca.example\"]", "[]", 12, 0),
    ("[\"ca.example\"]", "[\"\"]", 12, 1),
    (
        "[\"ca.example\"]",
        "[\"ca.example\", \"ca..example\"]",
        12,
        2,
    ),
    ("[\"ca.example\"]", "[\"-ca.example\"]", 12, 1),
    ("[\"ca.example\"]", "[\"ca.example \"]", 12, 1),
    ("[\"ca.example\"]", "[\"ca.example; a=b\"]", 12, 1),
    (
        "[\"ca.example\"]",
        "[\"a\", \"b\", \"c\", \"d\", \"e\", \"f\", \"g\", \"h\", \"i\", \"j\", \"k\", \"l\", \"m\", \"n\", \"o\", \"P--9\"]",
        0,
        0,
    ),
    (
        "[\"ca.example\"]",
        "[\"a\", \"b\", \"c\", \"d\", \"e\", \"f\", \"g\", \"h\", \"i\", \"j\", \"k\", \"l\", \"m\", \"n\", \"o\", \"p\", \"-\"]",
        12,
        0,
    ),
    // two rules broken at once
    (
        "algorithm = \"ecdsa-sha256\"\nkey_id = \"22",
        "algorithm = \"ecdsa\"\nkey_id = \"",
        6,
        0,
    ),
    (
        "issuer = \"30123110300e06035504030c0747617465204341\"\nalgorithm = \"ecdsa-sha256\"\nkey_id = \"22",
        "issuer = \"0500\"\nalgorithm = \"ecdsa-sha256\"\nkey_id = \"zz",
        4,
        0,
    ),
    (
        "issuers = [\"ca.example\"]\n[ca]\nissuer = \"30",
        "issuers = []\n[ca]\nissuer = \"31",
        5,
        0,
    ),
    (
        "http://c.example/1.cer\"\n[suffixes]\nrules = \"com\\n",
        "http://c.example/1 cer\"\n[suffixes]\nrules = \"com..\\n",
        8,
        0,
    ),
    (
        "com\\nexample\\n\"\n[[callers]]\nid = \"acme\"",
        "com\\nexample.\\n\"\n[[callers]]\nid = \"\"",
        9,
        2,
    ),
    (
        "id = \"op\"\nrole = \"operator\"\ntoken = \"op-token\"",
        "id = \"op\"\nrole = \"owner\"\ntoken = \"acme-token\"",
        10,
        2,
    ),
];

const ISSUER: &str = "30123110300e06035504030c0747617465204341";

const AIA: &str = "http://c.example/1.cer";

const RULES: &str = "com\\nexample";

/// SEQUENCEs, each the only part of the one before it: 31 levels, and 32.
const NAME_OF_31_LEVELS: &str =
    "303c303a30383036303430323030302e302c302a30283026302430223020301e301c301a30183016301430123010300e300c300a30083006300430023000";

const NAME_OF_32_LEVELS: &str =
    "303e303c303a30383036303430323030302e302c302a30283026302430223020301e301c301a30183016301430123010300e300c300a30083006300430023000";

/// Texts at a limit, and beyond it.
pub const LIMITS: [Long; 14] = [
    // bytes of the file, behind a comment
    ("[ca]", "[ca]#", "x", 1_048_576 - 1_231, 0, 0),
    ("[ca]", "[ca]#", "x", 1_048_577 - 1_231, 1, 0),
    // levels and bytes of the issuer
    (ISSUER, NAME_OF_31_LEVELS, "", 0, 0, 0),
    (ISSUER, NAME_OF_32_LEVELS, "", 0, 5, 0),
    (ISSUER, "308203fc048203f8", "00", 1_016, 0, 0),
    (ISSUER, "308203fd048203f9", "00", 1_017, 5, 0),
    // bytes of an address, and suffix rules
    (AIA, "http://", "a", 505, 0, 0),
    (AIA, "http://", "a", 506, 8, 0),
    (RULES, "", "a\\n", 16_384, 0, 0),
    (RULES, "", "a\\n", 16_385, 9, 0),
    // bytes of a token, and of an id
    ("acme-token", "", "t", 64, 0, 0),
    ("acme-token", "", "t", 65, 10, 1),
    ("id = \"op", "id = \"", "o", 64, 0, 0),
    ("id = \"op", "id = \"", "o", 65, 10, 2),
];
