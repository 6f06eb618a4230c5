ghost use Rattle.std.specs.Prelude.{◌≡◌, IfOk};
ghost use Rattle.domain_methods.specs.Rules as rules;
ghost use Rattle.domain_methods.specs.Rules.{IsVerdict, verdict_of};

use crate::challenge::Challenge;
use crate::records::judge_records;
use crate::value::value_text;
use crate::verdict::Verdict;
use crate::website::judge_website;
use gate_base::{Method, Moment, NoMemory, Seen};
use std::alloc::Global;

/// For how long a random value serves: 30 days.
const VALUE_SECONDS: u64 = 2_592_000;

fn is_of_dns(seen: &Seen) -> bool
    ensures { result ≡ rules.is_of_dns seen.now }
{
    match seen {
        Seen::Dns(_) => true,
        Seen::Web(_) => false,
    }
}

fn is_of_another_kind(method: Method, seen: &Seen) -> bool
    ensures { result ≡ rules.is_of_another_kind method seen.now }
{
    match method {
        Method::DnsChange => !is_of_dns(seen),
        Method::WebChange | Method::AcmeHttp => is_of_dns(seen),
    }
}

fn is_out_of_time(made: Moment, at: Moment) -> bool
    ensures { result ≡ rules.is_out_of_time made.0 at.0 }
{
    at.0 < made.0 || at.0 - made.0 > VALUE_SECONDS
}

fn judge(alloc: Global, c: &Challenge, seen: &Seen, seen_at: Moment) -> Result<Verdict, NoMemory>
    ensures { IfOk result (λ verdict. verdict ≡ verdict_of c.now seen.now seen_at.0) }
{
    if is_of_another_kind(c.method, seen) {
        return Ok(Verdict::Broken(1));
    }
    if is_out_of_time(c.made, seen_at) {
        return Ok(Verdict::Broken(2));
    }
    let mut value = Vec::new(alloc);
    value_text(c, &mut value)?;
    match seen {
        Seen::Dns(records) => Ok(judge_records(c, value.as_slice(), records)),
        Seen::Web(website) => judge_website(alloc, c, value.as_slice(), website),
    }
}

/// Whether what was seen at a moment confirms a challenge.
pub fn confirms(
    alloc: Global,
    c: &Challenge,
    seen: &Seen,
    seen_at: Moment,
) -> Result<Verdict, NoMemory>
    // Good where no rule is broken, and otherwise the broken rule of least number.
    ensures exact { IfOk result (λ verdict. verdict ≡ verdict_of c.now seen.now seen_at.0) }
    ensures verdict { IfOk result (λ verdict. IsVerdict c.now seen.now seen_at.0 verdict) }
{
    judge(alloc, c, seen, seen_at)
}
