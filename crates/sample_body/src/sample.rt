//! The body that a plan for a request has.
ghost use Rattle.std.specs.Prelude.{IfOk, IfErr};
ghost use Rattle.sample_body.specs.Sample.{CanBeMet, IsSample, IsWhy};

use crate::fault::Fault;
use crate::names::check_names;
use crate::profile::example_profile;
use crate::words::Wanted;
use csr10::read_request;
use gate_base::{Bytes, Moment};
use std::alloc::Global;
use tbs_build::{Plan, build};

/// 47 days, of which the first second and the last one count (RFC 5280, section 4.1.2.5).
const VALID_FOR: u64 = 47 * 86_400 - 1;

/// A request may have so many bytes.
pub const LONGEST_REQUEST: usize = 16_384;

/// A SubjectPublicKeyInfo may have so many bytes.
const LONGEST_KEY: usize = 16_384;

/// The body for the key and the names of the request, by the example's profile.
pub fn body_for(alloc: Global, wanted: &Wanted, request: &[u8]) -> Result<Bytes, Fault>
    requires { CanBeMet wanted.now }
    ensures ok { IfOk result (λ body. IsSample request.now wanted.now body) }
    // Otherwise there is none.
    ensures err { IfErr result (IsWhy request.now wanted.now) }
{
    if request.len() > LONGEST_REQUEST {
        return Err(Fault::Long);
    }
    let fields = read_request(alloc, request)?;
    let Some(targets) = &fields.san else {
        return Err(Fault::NoNames);
    };
    check_names(alloc, wanted.common, targets.as_slice())?;
    if fields.spki.len() > LONGEST_KEY {
        return Err(Fault::Key);
    }
    let profile = example_profile(alloc, wanted.alg)?;
    let plan = Plan {
        serial: &wanted.serial,
        not_before: wanted.not_before,
        not_after: Moment(wanted.not_before.0 + VALID_FOR),
        spki: fields.spki,
        kind: fields.kind,
        targets,
        common: wanted.common,
        profile: &profile,
    };
    Ok(build(alloc, &plan)?)
}
