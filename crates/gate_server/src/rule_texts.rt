//! What the settings' rules say on standard error: what is wrong, which item the number counts, and what to do.

/// The lines of one rule.
#[derive(Clone, Copy)]
pub struct RuleText {
    /// What breaks it.
    pub broken: &'static str,
    /// What its item counts from 1; empty where no place is told.
    pub counts: &'static str,
    /// What to do.
    pub remedy: &'static str,
}

/// The lines of the rule with this number.
pub fn rule_text(rule: u8) -> RuleText {
    let (broken, counts, remedy) = match rule {
        1 => (
            "it has more than 1048576 bytes",
            "",
            "shorten it: public suffix rules take most of the room",
        ),
        2 => (
            "it is no TOML in UTF-8",
            "",
            "look for an open quote, a key that stands twice, or a number beyond 64 bits",
        ),
        3 => (
            "a member is missing, unknown or of another type",
            "",
            "compare its members with docs/SETTINGS.md; only an account has a thumb",
        ),
        4 => (
            "ca.issuer or ca.key_id is not hexadecimal",
            "",
            "give each as an even number of hexadecimal digits",
        ),
        5 => (
            "ca.issuer is no Name in DER, or has more than 1024 bytes",
            "",
            "take the issuer's Name from the authority's certificate",
        ),
        6 => (
            "ca.algorithm is unknown",
            "",
            "give rsa-sha256, ecdsa-sha256 or ecdsa-sha384",
        ),
        7 => (
            "ca.key_id does not have 20 bytes",
            "",
            "give the authority's subject key identifier, 40 digits",
        ),
        8 => (
            "ca.crl or ca.aia is no address",
            "",
            "begin it with http:// and use at most 512 visible characters",
        ),
        9 => (
            "suffixes.rules has a line that is no rule, or too many rules",
            "line",
            "use one rule on a line, at most 16384",
        ),
        10 => (
            "a caller breaks a limit of its table",
            "caller",
            "see its id, token, role and thumb: each id and each token stands once",
        ),
        11 => (
            "the perspectives are no panel",
            "perspective",
            "see its region and place, and that one alone is the primary",
        ),
        _ => (
            "issuers has no name, too many, or one that is none",
            "issuer",
            "give 1 to 16 domain names, as in CAA records",
        ),
    };
    RuleText {
        broken,
        counts,
        remedy,
    }
}
